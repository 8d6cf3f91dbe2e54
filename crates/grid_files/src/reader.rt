//! The reader of set files: a machine of fixed size over the bytes of a text, beside the distinct
//! cells so far.
ghost use Rattle.std.specs.Prelude.{◌≡◌, ◌∷◌, ℕ, List, IfOk};
ghost use Rattle.cube_sets.specs.Sets.{Members};
ghost use Rattle.grid_files.specs.Items.{Item, Open, nothing};
ghost use Rattle.grid_files.specs.SetFile.{no_members};
ghost use Rattle.grid_files.specs.Reading.{start_of, closing_place};
ghost use Rattle.grid_files.specs.Openings.{IsOpening, IsClosing};
ghost use Rattle.grid_files.specs.Scanning.{IsCarry, listed};
ghost use Rattle.grid_files.specs.Readings.{Reads, Leads, Feeds, Ends};
ghost use Rattle.grid_files.specs.declared.scanner.Carry.TheVariants.{Between};

use crate::cells::Cells;
use crate::fault::{Kind, TextCause, TextFault};
use crate::gathered::{Gathered, Refusal};
use crate::opening::{Closing, Opening, Turn, take_turn};
use crate::piece::Piece;
use crate::scanner::{Carry, Placed, scan};
use cube_sets::CubeSet;
use std::alloc::Global;

/// Where the reading of a set file stands.
#[derive(Drop)]
pub(crate) struct Reader {
    pub(crate) gathered: Gathered,
    pub(crate) opening: Opening,
    pub(crate) start: u64,
}

// The first byte of what stands open behind a piece at this place.
fn start_of(opening: Opening, start: u64, at: u64) -> u64
    ensures { (o : Open) → IsOpening opening o → result ≡ start_of o start at }
{
    if opening.is_open() { start } else { at }
}

// The place of an item's fault.
fn closing_place(closing: Closing, start: u64, at: u64) -> u64
    ensures { (item : Item) → IsClosing closing item → result ≡ closing_place item start at }
{
    match closing {
        Closing::Dimension(_) => at,
        Closing::Full(_) | Closing::Elementary(_, _) | Closing::Skipped => start,
    }
}

impl Reader {
    /// Nothing is read yet.
    pub(crate) fn new(alloc: Global, kind: Kind) -> Reader
        ensures reads { Reads result no_members nothing }
        ensures kind { result.gathered.kind ≡ kind }
        ensures start { result.start ≡ 0 }
    {
        Reader {
            gathered: Gathered {
                kind,
                dimension: 0,
                cells: Cells::new(alloc),
            },
            opening: Opening::Nothing,
            start: 0,
        }
    }

    // One more piece.
    fn take(&mut self, at: u64, piece: Piece) -> Result<(), TextFault>
        ensures { (set : Members) (o : Open) → Reads self.old set o
            → Leads self.old.gathered.kind set o self.old.start
            (λ rest. (at, piece) ∷ rest) self.new result }
    {
        let start = start_of(self.opening, self.start, at);
        match take_turn(self.opening, piece) {
            Turn::Stops(cause) => Err(TextFault::At { place: at, cause }),
            Turn::Goes(opening) => {
                self.opening = opening;
                self.start = start;
                Ok(())
            }
            Turn::Closes(closing) => {
                let place = closing_place(closing, start, at);
                match self.gathered.join(closing) {
                    Ok(()) => {
                        self.opening = Opening::Nothing;
                        self.start = 0;
                        Ok(())
                    }
                    Err(Refusal::Cause(cause)) => Err(TextFault::At { place, cause }),
                    Err(Refusal::NoMemory) => Err(TextFault::NoMemory),
                }
            }
        }
    }

    // A piece, if there is one. Most bytes end none, so that is seen without a call.
    #[inline(always)]
    fn take_any(&mut self, placed: Option<Placed>) -> Result<(), TextFault>
        ensures { (set : Members) (o : Open) → Reads self.old set o
            → Leads self.old.gathered.kind set o self.old.start (listed placed) self.new result }
    {
        match placed {
            Some(placed) => self.take(placed.0, placed.1),
            None => Ok(()),
        }
    }

    // At most two pieces.
    #[inline(always)]
    fn take_both(&mut self, first: Option<Placed>, second: Option<Placed>) -> Result<(), TextFault>
        ensures { (set : Members) (o : Open) → Reads self.old set o
            → Leads self.old.gathered.kind set o self.old.start
            (λ rest. listed first (listed second rest)) self.new result }
    {
        match self.take_any(first) {
            Ok(()) => self.take_any(second),
            Err(fault) => Err(fault),
        }
    }

    /// One more byte, which stands at this place.
    #[inline(always)]
    pub(crate) fn feed(&mut self, carry: Carry, place: u64, b: u8) -> Result<Carry, TextFault>
        requires { IsCarry carry }
        ensures feeds { (set : Members) (o : Open) → Reads self.old set o
            → Feeds self.old.gathered.kind set o self.old.start carry place b self.new result }
        ensures carry { IfOk result (λ next. IsCarry next) }
        ensures line { IfOk result (λ next. b ≡ 10 → next ≡ Between) }
    {
        let scanned = scan(carry, place, b);
        match self.take_both(scanned.first, scanned.second) {
            Ok(()) => Ok(scanned.carry),
            Err(fault) => Err(fault),
        }
    }

    /// The text is at its end.
    pub(crate) fn finish(self) -> Result<CubeSet, TextFault>
        requires { (set : Members) × (o : Open) × Reads self set o }
        ensures { (set : Members) (o : Open) → Reads self set o → Ends o self.start set result }
    {
        if self.opening.is_open() {
            return Err(TextFault::At {
                place: self.start,
                cause: TextCause::Unclosed,
            });
        }
        let dimension = self.gathered.dimension;
        let cells = self.gathered.cells.into_vec()?;
        let set = CubeSet::of_cells(dimension, cells)?;
        let _len = set.len();
        Ok(set)
    }
}
