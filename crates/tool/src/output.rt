//! What a run writes where nothing is refused: a text, and a file before it, where there is one.
ghost use Rattle.std.specs.Prelude.{◌≡◌, None, Some, option_map, IfOk};
ghost use Rattle.faults.specs.FaultText.{fault_text};
ghost use Rattle.witness_delivery.specs.Delivery.{whole};
ghost use Rattle.tool.specs.Ends.{IsLineOn};
ghost use Rattle.tool.specs.Tasks.{lifted};

use faults::{Fault, Name, fault_text};
use loading::Answer;
use std::alloc::{AllocError as NoMemory, Global};
use std::marker::Model;

/// A file that is to be written.
#[derive(Drop)]
pub struct OutputFile {
    name: Name,
    bytes: Vec<u8>,
}

impl Model for OutputFile {
    ghost use Rattle.witness_delivery.specs.Delivery.{WholeFile, whole};

    ghost Value = { WholeFile };

    ghost view = { λ f. whole f.name f.bytes.items };
}

impl OutputFile {
    /// The file of this name and these bytes.
    pub fn of(name: Name, bytes: Vec<u8>) -> OutputFile
        ensures { result ≡ whole name bytes.items }
    {
        OutputFile { name, bytes }
    }

    /// Its name.
    pub fn name(&self) -> &Name
        ensures { result.now ≡ self.now.name }
    {
        &self.name
    }

    /// Its bytes.
    pub fn bytes(&self) -> &[u8]
        ensures { result.now ≡ self.now.bytes }
    {
        &self.bytes
    }
}

/// What a run writes: a text, and before it a file, where there is one.
#[derive(Drop)]
pub struct Output {
    text: Answer,
    file: Option<OutputFile>,
}

impl Model for Output {
    ghost use Rattle.tool.specs.Tasks.{Written};

    ghost Value = { Written };

    ghost view = { λ o. record { text = o.text; file = o.file } };
}

impl Output {
    /// This text, and a file, where there is one.
    pub fn of(text: Answer, file: Option<OutputFile>) -> Output
        ensures { result ≡ record { text = text; file = file } }
    {
        Output { text, file }
    }

    /// The text.
    pub fn text(&self) -> &[u8]
        ensures { result.now ≡ self.now.text }
    {
        self.text.text()
    }

    /// The file's name and its bytes.
    pub fn file(&self) -> Option<(&str, &[u8])>
        ensures { option_map (λ w. whole w.0.now w.1.now) result ≡ self.now.file }
    {
        match &self.file {
            Some(file) => Some((file.name().as_str(), file.bytes())),
            None => None,
        }
    }

    /// The line that is due where the file is not written whole.
    pub fn line_on_file(&self, alloc: Global) -> Result<Vec<u8>, NoMemory>
        ensures { IfOk result (λ line. IsLineOn self.now.file line.items) }
    {
        match &self.file {
            Some(file) => line_on(alloc, file.name()),
            None => Ok(Vec::new(alloc)),
        }
    }
}

// The line on a file that is not written whole.
fn line_on(alloc: Global, name: &Name) -> Result<Vec<u8>, NoMemory>
    ensures { IfOk result (λ line. line.items ≡ fault_text (Fault.CannotWrite name.now)) }
{
    let name = name.copy(alloc)?;
    fault_text(alloc, &Fault::CannotWrite { name })
}

/// A text that is written alone, or its refusal.
pub fn alone(answer: Result<Answer, Fault>) -> Result<Output, Fault>
    ensures { result ≡ lifted answer }
{
    match answer {
        Ok(text) => Ok(Output::of(text, None)),
        Err(fault) => Err(fault),
    }
}
