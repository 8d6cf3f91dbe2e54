//! What a chain file has said so far.
ghost use Rattle.std.specs.Prelude.{◌≡◌, ◌<◌, ◌≤◌, ◌+◌, ◌^◌, ◌++◌, length, replicate, OnOk, OnErr, Err};
ghost use Rattle.chain_files.specs.Content.{Boundary, not_given};
ghost use Rattle.chain_files.specs.Known.{nothing_known, with_top, with_degree, with_boundary, with_count, with_term};
ghost use Rattle.chain_files.specs.Readers.{IsKnown, Makes};
ghost use Rattle.chain_files.specs.Numbers.{most_generators, most_terms};

use crate::block::Block;
use crate::entry::Entry;
use crate::fault::{ChainCause, GENERATORS, MAX_DEGREE};
use std::alloc::{AllocError, Global};
use std::marker::Model;

/// Why the reading goes no further: the text is refused at a place, or no memory was left.
#[derive(Clone, Copy)]
pub(crate) enum Refusal {
    At { place: u64, cause: ChainCause },
    NoMemory,
}

/// What a chain file has said so far.
#[derive(Drop)]
pub(crate) struct Gathered {
    top: u8,
    next: u32,
    below: Block,
    here: Block,
    degrees: Vec<u8>,
    entries: Vec<Entry>,
    terms: u32,
    last: u32,
}

impl From<AllocError> for Refusal {
    ghost use Rattle.std.specs.Prelude.{◌≡◌};
    ghost use Rattle.chain_files.specs.declared.gathered.Refusal.TheVariants.{NoMemory};

    ghost from_gives = { λ _ refusal. refusal ≡ NoMemory };

    fn from(_e: AllocError) -> Refusal {
        Refusal::NoMemory
    }
}

impl Model for Gathered {
    ghost use Rattle.chain_files.specs.Known.{Known};
    ghost use Rattle.chain_files.specs.Readers.{IsKnown};

    ghost Value = { Known };

    ghost view = { λ g. record {
      content = record { top = g.top; degrees = g.degrees.items; boundaries = g.entries.items };
      next = g.next;
      below = g.below;
      here = g.here;
      terms = g.terms;
      last = g.last;
    } };

    ghost invariant = { λ g. IsKnown (record {
      content = record { top = g.top; degrees = g.degrees.items; boundaries = g.entries.items };
      next = g.next;
      below = g.below;
      here = g.here;
      terms = g.terms;
      last = g.last;
    }) };
}

fn refused(place: u64, cause: ChainCause) -> Result<(), Refusal>
    ensures { result ≡ Err (Refusal.At place cause) }
{
    Err(Refusal::At { place, cause })
}

// The same degree so many times more. Where memory is wanting they stay as they were.
fn extend_degrees(degrees: &mut Vec<u8>, degree: u8, n: u32) -> Result<(), AllocError>
    ensures ok { OnOk result (degrees.new.items ≡ degrees.old.items ++ replicate n degree) }
    ensures err { OnErr result (degrees.new.items ≡ degrees.old.items) }
{
    let before = degrees.len();
    for _ in 0..n {
        if degrees.push(degree).is_err() {
            degrees.truncate(before);
            return Err(AllocError);
        }
    }
    Ok(())
}

// So many boundaries more, of which the file says nothing. Where memory is wanting they stay as
// they were.
fn extend_entries(alloc: Global, entries: &mut Vec<Entry>, n: u32) -> Result<(), AllocError>
    ensures ok { OnOk result (entries.new.items ≡ entries.old.items ++ replicate n not_given) }
    ensures err { OnErr result (entries.new.items ≡ entries.old.items) }
{
    let before = entries.len();
    for _ in 0..n {
        if entries.push(Entry::not_given(alloc)).is_err() {
            entries.truncate(before);
            return Err(AllocError);
        }
    }
    Ok(())
}

impl Gathered {
    /// Nothing is read.
    pub(crate) fn new(alloc: Global) -> Gathered
        ensures { result ≡ nothing_known }
    {
        let none = Block { first: 0, count: 0 };
        Gathered {
            top: 0,
            next: 0,
            below: none,
            here: none,
            degrees: Vec::new(alloc),
            entries: Vec::new(alloc),
            terms: 0,
            last: 0,
        }
    }

    /// The number at a place is the greatest degree.
    pub(crate) fn set_top(&mut self, place: u64, z: i64) -> Result<(), Refusal>
        ensures { Makes (with_top self.old z) place self.new result }
    {
        match u64::try_from(z) {
            Ok(top) if top <= u64::from(MAX_DEGREE) => {
                self.top = top as u8;
                Ok(())
            }
            _ => refused(place, ChainCause::BadNumber),
        }
    }

    /// The number at a place says how many generators a degree has.
    pub(crate) fn add_degree(
        &mut self,
        alloc: Global,
        degree: u8,
        place: u64,
        z: i64,
    ) -> Result<(), Refusal>
        ensures { Makes (with_degree self.old degree z) place self.new result }
    {
        let Ok(count) = u64::try_from(z) else {
            return refused(place, ChainCause::BadNumber);
        };
        let first = self.here.first + self.here.count;
        if count > u64::from(GENERATORS - first) {
            return refused(place, ChainCause::TooManyGenerators);
        }
        let count = count as u32;
        extend_degrees(&mut self.degrees, degree, count)?;
        let Ok(()) = extend_entries(alloc, &mut self.entries, count) else {
            self.degrees.truncate(first as usize);
            return Err(Refusal::NoMemory);
        };
        self.next = u32::from(degree) + 1;
        self.below = self.here;
        self.here = Block { first, count };
        Ok(())
    }

    /// The number at a place names the generator whose boundary begins.
    pub(crate) fn begin_boundary(
        &mut self,
        alloc: Global,
        place: u64,
        z: i64,
    ) -> Result<(), Refusal>
        ensures { Makes (with_boundary self.old z) place self.new result }
    {
        let Some(generator) = self.here.number(z) else {
            return refused(place, ChainCause::UnknownGenerator);
        };
        if self.entries[generator as usize].is_given() {
            return refused(place, ChainCause::RepeatedGenerator);
        }
        self.entries[generator as usize] = Entry::given(alloc);
        self.last = generator;
        Ok(())
    }

    /// How many terms there are.
    pub(crate) fn terms(&self) -> u32
        ensures { result ≡ self.now.terms }
    {
        self.terms
    }

    /// One more term counts.
    pub(crate) fn count_term(&mut self)
        requires { self.old.terms < most_terms }
        ensures { self.new ≡ with_count self.old }
    {
        self.terms += 1;
    }

    /// The number at a place names the generator of a term with this coefficient.
    pub(crate) fn add_term(&mut self, number: u16, place: u64, z: i64) -> Result<(), Refusal>
        ensures { Makes (with_term self.old number z) place self.new result }
    {
        let Some(generator) = self.below.number(z) else {
            return refused(place, ChainCause::UnknownGenerator);
        };
        self.entries[self.last as usize].push(generator, number)?;
        Ok(())
    }

    /// The degree that comes next.
    pub(crate) fn next(&self) -> u32
        ensures { result ≡ self.now.next }
    {
        self.next
    }

    /// The greatest degree.
    pub(crate) fn top(&self) -> u8
        ensures { result ≡ self.now.content.top }
    {
        self.top
    }

    /// The degrees of the generators, and what the file says of their boundaries.
    pub(crate) fn into_parts(self) -> (Vec<u8>, Vec<Entry>)
        ensures degrees { result.0.items ≡ self.content.degrees }
        ensures boundaries { result.1.items ≡ self.content.boundaries }
        ensures known { IsKnown self }
    {
        (self.degrees, self.entries)
    }
}
