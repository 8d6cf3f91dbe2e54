//! The words of the command line as one more thing that a run may be asked to do.
use crate::answers::answer_by;
use faults::Fault;
use outside::Files;
use parsing::command_of;
use std::alloc::Global;
use std::marker::Model;
use tool::{Output, Tool};

/// The words after the program's name, which contracts see as their bytes.
#[derive(Drop)]
pub struct Line<'a> {
    words: &'a [String],
}

impl<'a> Model for Line<'a> {
    ghost use Rattle.std.specs.Prelude.{List, ℕ};
    ghost use Rattle.command_line.specs.Forms.{spoken};

    ghost Value = { List (List ℕ) };

    ghost view = { λ l. spoken l.words.now };
}

impl<'a> Line<'a> {
    ghost use Rattle.std.specs.Prelude.{◌≡◌};
    ghost use Rattle.command_line.specs.Forms.{spoken};

    /// The line of these words.
    pub fn of(words: &'a [String]) -> Line<'a>
        ensures { result ≡ spoken words.now }
    {
        Line { words }
    }
}

impl<'a> Tool for Line<'a> {
    ghost use Rattle.all_tools.specs.Lines.{asked, line_once};

    ghost task = { asked };

    ghost one_judgement = { line_once };

    fn answer<F: Files>(&self, alloc: Global, files: &mut F) -> Result<Output, Fault> {
        let command = command_of(alloc, self.words)?;
        answer_by(alloc, files, command.tool(), &command)
    }
}
