//! Plans: which generators are taken in pairs, and in which order.
use crate::marks::Marks;
use chains::{Chain, Complex};
use std::alloc::{AllocError, Global};
use std::collections::VecDeque;

/// A generator b that is to be taken with a, if a stands in its row.
#[derive(Clone, Copy)]
pub struct Turn {
    pub b: u32,
    pub a: u32,
}

/// Up to so many degrees free pairs are taken from one free face on, else from all at once.
const FEW_DEGREES: usize = 4;

/// From this degree on generators have turns.
const TURNS_FROM: usize = 2;

/// The generators of each degree, marks, free faces that wait for their turn, and the order of one
/// degree.
#[derive(Drop)]
pub struct Plan {
    marks: Marks,
    degrees: Vec<Vec<u32>>,
    free: VecDeque<u32>,
    order: Vec<Turn>,
}

impl Plan {
    /// A plan for so many generators, of which none is known yet.
    pub fn new(alloc: Global, count: u32) -> Result<Plan, AllocError> {
        Ok(Plan {
            marks: Marks::new(alloc, count)?,
            degrees: Vec::new(alloc),
            free: VecDeque::new(alloc),
            order: Vec::new(alloc),
        })
    }

    /// One more generator of the complex, which is in a step or is not. In degree 1 it has no turn:
    /// there no row has more than two terms, and the order of the numbers serves as well, which
    /// needs no list.
    pub fn add<const P: u16>(
        &mut self,
        alloc: Global,
        complex: &Complex<P>,
        generator: u32,
        taken: bool,
    ) -> Result<(), AllocError> {
        if generator >= complex.len() {
            return Ok(());
        }
        let degree = complex.degree(generator) as usize;
        self.make_room(alloc, degree)?;
        if taken {
            let _ = self.marks.take_place(generator);
        }
        if degree < TURNS_FROM || complex.boundary(generator).is_empty() {
            return Ok(());
        }
        self.list(generator, degree)
    }

    fn make_room(&mut self, alloc: Global, degree: usize) -> Result<(), AllocError> {
        for _missing in self.degrees.len()..degree.saturating_add(1) {
            self.degrees.push(Vec::new(alloc))?;
        }
        Ok(())
    }

    fn list(&mut self, generator: u32, degree: usize) -> Result<(), AllocError> {
        if degree < self.degrees.len() {
            self.degrees[degree].push(generator)?;
        }
        Ok(())
    }

    /// How many degrees there are.
    pub fn degrees(&self) -> usize {
        self.degrees.len()
    }

    /// The turn at a place of the order, if there is one.
    pub fn turn(&self, place: usize) -> Option<Turn> {
        self.order.get(place).copied()
    }

    /// Puts the generators of a degree that have a turn and are in no step into an order, and
    /// answers how many they are. What can be taken by free pairs comes first; where none is free,
    /// one generator is set aside to the end. So nearly all rows stay as they are.
    pub fn order<const P: u16>(
        &mut self,
        alloc: Global,
        complex: &Complex<P>,
        degree: usize,
    ) -> Result<usize, AllocError> {
        self.order = Vec::new(alloc);
        let mut generators = Vec::new(alloc);
        if degree < self.degrees.len() {
            std::mem::swap(&mut generators, &mut self.degrees[degree]);
        }
        if self.count_waiting(complex, &generators) {
            self.order_free_first(alloc, complex, &generators)?;
        }
        Ok(self.order.len())
    }

    // Counts the boundaries that wait, and answers whether there is any.
    fn count_waiting<const P: u16>(&mut self, complex: &Complex<P>, generators: &[u32]) -> bool {
        let mut any = false;
        for b in generators {
            if *b < complex.len() && !self.marks.has_place(*b) {
                self.marks.count(*b, complex.boundary(*b));
                any = true;
            }
        }
        any
    }

    // From one free face on, what comes to be free is taken before the next free face: then what is
    // left goes close round each hole, and cycles are short. With more degrees that makes long rows
    // below the highest, and all free faces begin at once.
    fn order_free_first<const P: u16>(
        &mut self,
        alloc: Global,
        complex: &Complex<P>,
        generators: &[u32],
    ) -> Result<(), AllocError> {
        let one_by_one = self.degrees.len() <= FEW_DEGREES;
        for b in generators {
            if *b < complex.len() {
                self.queue_free(complex, complex.boundary(*b), one_by_one)?;
            }
        }
        self.order_free(complex)?;
        self.order_others(alloc, complex, generators)?;
        Ok(())
    }

    /// Queues the free faces of a boundary; one by one, each is followed before the next.
    fn queue_free<const P: u16>(
        &mut self,
        complex: &Complex<P>,
        boundary: &Chain<P>,
        one_by_one: bool,
    ) -> Result<(), AllocError> {
        for place in 0..boundary.len() {
            let (generator, _) = boundary.term(place);
            if self.marks.is_free(generator) {
                self.free.push_back(generator)?;
                if one_by_one {
                    self.order_free(complex)?;
                }
            }
        }
        Ok(())
    }

    fn order_free<const P: u16>(&mut self, complex: &Complex<P>) -> Result<(), AllocError> {
        'turns: for _turn in 0..u64::MAX {
            let Some(a) = self.free.pop_front() else {
                return Ok(());
            };
            self.order_if_free(complex, a)?;
        }
        Ok(())
    }

    fn order_if_free<const P: u16>(
        &mut self,
        complex: &Complex<P>,
        a: u32,
    ) -> Result<(), AllocError> {
        let Some(b) = self.marks.only_coface(a) else {
            return Ok(());
        };
        if b < complex.len() && !self.marks.take_place(b) {
            self.order.push(Turn { b, a })?;
            self.uncount(complex.boundary(b), b)?;
        }
        Ok(())
    }

    /// The boundary of b waits no longer: queues what comes to be free.
    fn uncount<const P: u16>(&mut self, boundary: &Chain<P>, b: u32) -> Result<(), AllocError> {
        self.marks.uncount(b, boundary);
        for place in 0..boundary.len() {
            let (generator, _) = boundary.term(place);
            if self.marks.is_free(generator) {
                self.free.push_back(generator)?;
            }
        }
        Ok(())
    }

    /// Sets one generator aside where none is free, until all have their place.
    fn order_others<const P: u16>(
        &mut self,
        alloc: Global,
        complex: &Complex<P>,
        generators: &[u32],
    ) -> Result<(), AllocError> {
        let mut aside = Vec::new(alloc);
        for b in generators {
            if *b < complex.len() && !self.marks.take_place(*b) {
                aside.push(Turn { b: *b, a: *b })?;
                self.uncount(complex.boundary(*b), *b)?;
                self.order_free(complex)?;
            }
        }
        self.order.append(&mut aside)?;
        Ok(())
    }

    /// The place in a row of the generator that a turn names, or else of the one that stands in the
    /// lightest rows.
    pub fn choose<const P: u16>(&self, row: &Chain<P>, a: u32) -> usize {
        let mut best = 0;
        let mut least = u32::MAX;
        for place in 0..row.len() {
            let (generator, _) = row.term(place);
            if generator == a {
                return place;
            }
            let weight = self.marks.weight(generator);
            if weight <= least {
                best = place;
                least = weight;
            }
        }
        best
    }

    /// A step by this row and a generator in it is made: the others become heavier, and this one
    /// needs no turn of its own.
    pub fn weigh<const P: u16>(&mut self, row: &Chain<P>, a: u32) {
        let _ = self.marks.take_place(a);
        let more = self.marks.weight(a).saturating_add(1);
        self.marks.weigh(row, more);
    }
}
