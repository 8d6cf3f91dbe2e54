//! The classes of a basis, by degree.
ghost use Rattle.std.specs.Prelude.{◌≡◌, ◌<◌, ◌≤◌, ◌+◌, ◌++◌, ◌∷◌, [], ℕ, List, length, IfOk, OnOk, if◌then◌else◌, ◌==◌};
ghost use Rattle.chains.specs.ChainComplex.{IsComplex};
ghost use Rattle.algebraic_reduction.specs.Laws.{IsReduction};
ghost use Rattle.homology_basis.specs.Bases.{in_degree};
ghost use Rattle.homology_basis.specs.Classes.{AreClasses};

use crate::class::Class;
use algebraic_reduction::Log;
use field_mod::Field;
use std::alloc::{AllocError, Global};
use std::marker::Model;

/// Lists of classes by degree from 0, seen as such.
#[derive(Drop)]
pub(crate) struct Classes<const P: u16> {
    by_degree: Vec<Vec<Class<P>>>,
}

impl<const P: u16> Model for Classes<P> {
    ghost use Rattle.std.specs.Prelude.{List, map};
    ghost use Rattle.homology_basis.specs.Classes.{ClassOf};

    ghost Value = { List (List ClassOf) };

    ghost view = { λ c. map (λ cs. cs.items) c.by_degree.items };
}

impl<const P: u16> Classes<P> {
    /// The classes of all generators that the steps of a log leave, with cocycles where these are
    /// wanted.
    pub(crate) fn of(
        alloc: Global,
        field: Field<P>,
        log: &Log<P>,
        wanted: bool,
    ) -> Result<Classes<P>, AllocError>
        ensures classes { IfOk result (AreClasses P log.now.complex log.now.steps wanted) }
        ensures complex { IsComplex P log.now.complex }
        ensures reduction { IsReduction P log.now.complex log.now.steps }
    {
        // Its clauses say what a log is.
        let _steps = log.step_count();
        let complex = log.complex();
        let mut classes = Classes {
            by_degree: Vec::new(alloc),
        };
        for generator in 0..complex.len() {
            if log.alive(generator) {
                let class = Class::of(alloc, field, log, generator, wanted)?;
                classes.insert(alloc, complex.degree(generator), class)?;
            }
        }
        Ok(classes)
    }

    /// The classes of a degree; there are none past the last list.
    pub(crate) fn of_degree(&self, degree: u8) -> &[Class<P>]
        ensures { result.now ≡ in_degree self.now degree }
    {
        match self.by_degree.get(usize::from(degree)) {
            Some(classes) => classes.as_slice(),
            None => &[],
        }
    }

    // One more class of a degree, after the others.
    fn insert(&mut self, alloc: Global, degree: u8, class: Class<P>) -> Result<(), AllocError>
        ensures { OnOk result ((k : ℕ)
            → in_degree self.new k ≡ (if k == degree then in_degree self.old k ++ class.entry
            ∷ [] else in_degree self.old k)) }
    {
        let place = usize::from(degree);
        self.make_room(alloc, place)?;
        self.by_degree[place].push(class)?;
        Ok(())
    }

    // Makes sure that a degree has a list.
    fn make_room(&mut self, alloc: Global, degree: usize) -> Result<(), AllocError>
        requires { degree < 256 }
        ensures room { OnOk result (degree < length self.new) }
        ensures same { OnOk result ((k : ℕ) → in_degree self.new k ≡ in_degree self.old k) }
    {
        while self.by_degree.len() <= degree {
            self.by_degree.push(Vec::new(alloc))?;
        }
        Ok(())
    }
}
