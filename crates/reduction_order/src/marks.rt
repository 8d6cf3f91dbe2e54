//! What an order notes of each generator.
use chains::Chain;
use std::alloc::{AllocError, Global};
use std::mem::size_of;

/// Boundaries are counted up to this number: a generator that so many name never comes to be free.
const MANY: u16 = u16::MAX;

/// What is known of a generator: how many boundaries that wait for their place in the order name
/// it, and whether it has its own place. While any of them waits, `number` is the exclusive or of
/// the generators that they are the boundaries of; it is 0 again when none does, and from then on
/// it is how much the rows weigh in which the generator stands.
#[derive(Clone, Copy)]
struct Mark {
    number: u32,
    count: u16,
    ordered: bool,
}

const NEW: Mark = Mark {
    number: 0,
    count: 0,
    ordered: false,
};

const _: () = prove!(size_of::<Mark>() == 8);

/// A mark for each generator.
#[derive(Drop)]
pub struct Marks {
    marks: Vec<Mark>,
}

impl Marks {
    /// Marks for so many generators, none of which is in a boundary or in a row.
    pub fn new(alloc: Global, count: u32) -> Result<Marks, AllocError> {
        let mut marks = Vec::with_capacity(alloc, count as usize)?;
        for _index in 0..count {
            marks.push(NEW)?;
        }
        Ok(Marks { marks })
    }

    fn of(&self, generator: u32) -> Mark {
        self.marks.get(generator as usize).copied().unwrap_or(NEW)
    }

    /// How much the rows weigh in which a generator stands.
    pub fn weight(&self, generator: u32) -> u32 {
        self.of(generator).number
    }

    /// Whether one boundary alone names the generator.
    pub fn is_free(&self, generator: u32) -> bool {
        self.of(generator).count == 1
    }

    /// The generator whose boundary alone names a free one.
    pub fn only_coface(&self, generator: u32) -> Option<u32> {
        let mark = self.of(generator);
        if mark.count == 1 {
            Some(mark.number)
        } else {
            None
        }
    }

    /// Whether a generator has its place in the order.
    pub fn has_place(&self, generator: u32) -> bool {
        self.of(generator).ordered
    }

    /// The same; from now on it has.
    pub fn take_place(&mut self, generator: u32) -> bool {
        match self.marks.get_mut(generator as usize) {
            Some(mark) => {
                let before = mark.ordered;
                mark.ordered = true;
                before
            }
            None => true,
        }
    }

    /// The boundary of b is one more that waits.
    pub fn count<const P: u16>(&mut self, b: u32, boundary: &Chain<P>) {
        for place in 0..boundary.len() {
            let (generator, _) = boundary.term(place);
            if let Some(mark) = self.marks.get_mut(generator as usize) {
                mark.count = mark.count.saturating_add(1);
                mark.number ^= b;
            }
        }
    }

    /// The boundary of b waits no longer.
    pub fn uncount<const P: u16>(&mut self, b: u32, boundary: &Chain<P>) {
        for place in 0..boundary.len() {
            let (generator, _) = boundary.term(place);
            if let Some(mark) = self.marks.get_mut(generator as usize) {
                if mark.count != MANY {
                    mark.count = mark.count.saturating_sub(1);
                }
                mark.number ^= b;
            }
        }
    }

    /// Each generator of a row becomes heavier.
    pub fn weigh<const P: u16>(&mut self, row: &Chain<P>, more: u32) {
        for place in 0..row.len() {
            let (generator, _) = row.term(place);
            if let Some(mark) = self.marks.get_mut(generator as usize) {
                mark.number = mark.number.saturating_add(more);
            }
        }
    }
}
