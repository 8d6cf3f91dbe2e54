//! The reader of map files: a machine of fixed size over the bytes of a text, beside the distinct
//! cubes and pairs so far and the corners of a list that stands open.
ghost use Rattle.std.specs.Prelude.{◌≡◌, ◌∷◌, ℕ, ℤ, List, IfOk};
ghost use Rattle.cube_maps.specs.CubeMaps.{Mapping};
ghost use Rattle.grid_files.specs.Scanning.{IsCarry, listed};
ghost use Rattle.grid_files.specs.declared.scanner.Carry.TheVariants.{Between};
ghost use Rattle.map_files.specs.Items.{Item, Open, nothing};
ghost use Rattle.map_files.specs.MapFile.{no_namings};
ghost use Rattle.map_files.specs.Reading.{start_of, closing_place};
ghost use Rattle.map_files.specs.Openings.{IsOpening, IsClosing};
ghost use Rattle.map_files.specs.Readings.{Reads, Leads, Feeds, Ends};

use crate::gathered::{Gathered, Refusal};
use crate::opening::{Closing, Opening, Turn, take_turn};
use crate::parts::Parts;
use crate::values::Values;
use cube_maps::CubeMap;
use grid_files::{Carry, Piece, Placed, TextCause, TextFault, scan};
use std::alloc::Global;

/// Where the reading of a map file stands.
#[derive(Drop)]
pub(crate) struct Reader {
    pub(crate) gathered: Gathered,
    pub(crate) opening: Opening,
    pub(crate) values: Values,
    pub(crate) start: u64,
}

// The first byte of what stands open behind a piece at this place.
fn start_of(opening: Opening, start: u64, at: u64) -> u64
    ensures { (o : Open) → IsOpening opening o → result ≡ start_of o start at }
{
    match opening {
        Opening::Nothing => at,
        Opening::InLeft(_)
        | Opening::BeforeArrow(_)
        | Opening::BeforeValue(_)
        | Opening::InSingle(_, _)
        | Opening::InList(_)
        | Opening::InListed(_, _)
        | Opening::BehindWord => start,
    }
}

// The place of an item's fault.
fn closing_place(closing: Closing, start: u64, at: u64) -> u64
    ensures { (vs : List (List ℤ)) (item : Item) → IsClosing vs closing item
        → result ≡ closing_place item start at }
{
    match closing {
        Closing::Dimension(_) => at,
        Closing::Single(_, _) | Closing::Listed(_) | Closing::Skipped => start,
    }
}

impl Reader {
    /// Nothing is read yet.
    pub(crate) fn new(alloc: Global) -> Reader
        ensures reads { Reads result no_namings nothing }
        ensures start { result.start ≡ 0 }
    {
        Reader {
            gathered: Gathered {
                dimension: 0,
                parts: Parts::new(alloc),
            },
            opening: Opening::Nothing,
            values: Values::new(alloc),
            start: 0,
        }
    }

    // One more piece.
    fn take(&mut self, at: u64, piece: Piece) -> Result<(), TextFault>
        ensures { (m : Mapping) (o : Open) → Reads self.old m o
            → Leads m o self.old.start (λ rest. (at, piece) ∷ rest) self.new result }
    {
        let start = start_of(self.opening, self.start, at);
        match take_turn(self.opening, piece) {
            Turn::Stops(cause) => Err(TextFault::At { place: at, cause }),
            Turn::Goes(opening) => {
                self.opening = opening;
                self.start = start;
                Ok(())
            }
            Turn::Adds(left, value) => match self.values.add(&value) {
                Ok(()) => {
                    self.opening = Opening::InList(left);
                    self.start = start;
                    Ok(())
                }
                Err(_) => Err(TextFault::NoMemory),
            },
            Turn::Closes(closing) => {
                let place = closing_place(closing, start, at);
                match self.gathered.join(closing, &mut self.values) {
                    Ok(()) => {
                        self.values.clear();
                        self.opening = Opening::Nothing;
                        self.start = 0;
                        Ok(())
                    }
                    Err(Refusal::Cause(cause)) => Err(TextFault::At { place, cause }),
                    Err(Refusal::NoMemory) => Err(TextFault::NoMemory),
                }
            }
        }
    }

    // A piece, if there is one. Most bytes end none, so that is seen without a call.
    #[inline(always)]
    fn take_any(&mut self, placed: Option<Placed>) -> Result<(), TextFault>
        ensures { (m : Mapping) (o : Open) → Reads self.old m o
            → Leads m o self.old.start (listed placed) self.new result }
    {
        match placed {
            Some(placed) => self.take(placed.0, placed.1),
            None => Ok(()),
        }
    }

    // At most two pieces.
    #[inline(always)]
    fn take_both(&mut self, first: Option<Placed>, second: Option<Placed>) -> Result<(), TextFault>
        ensures { (m : Mapping) (o : Open) → Reads self.old m o
            → Leads m o self.old.start (λ rest. listed first (listed second rest)) self.new result }
    {
        match self.take_any(first) {
            Ok(()) => self.take_any(second),
            Err(fault) => Err(fault),
        }
    }

    /// One more byte, which stands at this place.
    #[inline(always)]
    pub(crate) fn feed(&mut self, carry: Carry, place: u64, b: u8) -> Result<Carry, TextFault>
        requires { IsCarry carry }
        ensures feeds { (m : Mapping) (o : Open) → Reads self.old m o
            → Feeds m o self.old.start carry place b self.new result }
        ensures carry { IfOk result (λ next. IsCarry next) }
        ensures line { IfOk result (λ next. b ≡ 10 → next ≡ Between) }
    {
        let scanned = scan(carry, place, b);
        match self.take_both(scanned.first, scanned.second) {
            Ok(()) => Ok(scanned.carry),
            Err(fault) => Err(fault),
        }
    }

    /// The text is at its end.
    pub(crate) fn finish(&self, alloc: Global) -> Result<CubeMap, TextFault>
        requires { (m : Mapping) × (o : Open) × Reads self.now m o }
        ensures { (m : Mapping) (o : Open) → Reads self.now m o → Ends o self.now.start m result }
    {
        if self.opening.is_open() {
            return Err(TextFault::At {
                place: self.start,
                cause: TextCause::Unclosed,
            });
        }
        let Ok(cubes) = self.gathered.parts.cubes(alloc) else {
            return Err(TextFault::NoMemory);
        };
        let Ok(pairs) = self.gathered.parts.pairs(alloc) else {
            return Err(TextFault::NoMemory);
        };
        let Ok(map) = CubeMap::of_parts(alloc, self.gathered.dimension, cubes, pairs) else {
            return Err(TextFault::NoMemory);
        };
        Ok(map)
    }
}
