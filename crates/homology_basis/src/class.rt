//! One class of a basis.
ghost use Rattle.std.specs.Prelude.{◌≡◌, ◌≢◌, ◌*◌, ◌%◌, ◌<◌, ◌≤◌, ℕ, IfOk, IsTrue, length};
ghost use Rattle.field_mod.specs.Sums.{total};
ghost use Rattle.field_mod.specs.Modular.{Same};
ghost use Rattle.chains.specs.Terms.{coefficient, IsNormal};
ghost use Rattle.algebraic_reduction.specs.Reduction.{IsUnpaired, single as one};
ghost use Rattle.algebraic_reduction.specs.Laws.{IsReduction, project_of};
ghost use Rattle.homology_basis.specs.Classes.{IsClass};

use algebraic_reduction::Log;
use chains::Chain;
use field_mod::Field;
use std::alloc::{AllocError, Global};
use std::marker::Model;

/// A generator that the steps of a log leave, with the cycle and the cocycle that it stands for.
#[derive(Drop)]
pub(crate) struct Class<const P: u16> {
    cycle: Chain<P>,
    cocycle: Chain<P>,
    generator: u32,
}

impl<const P: u16> Model for Class<P> {
    ghost use Rattle.homology_basis.specs.Classes.{ClassOf};

    ghost Value = { ClassOf };

    ghost view = { λ c. record { generator = c.generator; cycle = c.cycle; cocycle = c.cocycle } };
}

impl<const P: u16> Class<P> {
    /// The class of a generator that is left: its inclusion, divided by the first coefficient, and
    /// where it is wanted the transposed projection of the generator times that coefficient, the
    /// cocycle. Where it is not wanted that is empty.
    pub(crate) fn of(
        alloc: Global,
        field: Field<P>,
        log: &Log<P>,
        generator: u32,
        wanted: bool,
    ) -> Result<Class<P>, AllocError>
        requires inside { generator < length log.now.complex.boundaries }
        requires left { IsUnpaired log.now.steps generator }
        requires reduction { IsReduction P log.now.complex log.now.steps }
        ensures class { IfOk result (IsClass P log.now.complex log.now.steps wanted) }
        ensures generator { IfOk result (λ c. c.generator ≡ generator) }
    {
        let single = Chain::from_terms(alloc, field, &[(generator, 1)])?;
        let included = log.include(alloc, field, &single)?;
        // Its clauses say that the chain is in normal form.
        let _terms = included.len();
        let (_, first) = included.term(0);
        let cycle = scaled(alloc, field, field.inv(first), included)?;
        let cocycle = cocycle_of(alloc, field, log, &single, first, wanted)?;
        Ok(Class {
            cycle,
            cocycle,
            generator,
        })
    }

    /// The cycle.
    pub(crate) fn cycle(&self) -> &Chain<P>
        ensures { result.now ≡ self.now.cycle }
    {
        &self.cycle
    }

    /// The cocycle.
    pub(crate) fn cocycle(&self) -> &Chain<P>
        ensures { result.now ≡ self.now.cocycle }
    {
        &self.cocycle
    }
}

// A number times the transposed projection of a chain, or the empty chain where that is not wanted.
fn cocycle_of<const P: u16>(
    alloc: Global,
    field: Field<P>,
    log: &Log<P>,
    single: &Chain<P>,
    scale: u16,
    wanted: bool,
) -> Result<Chain<P>, AllocError>
    requires { scale < P }
    ensures normal { IfOk result (IsNormal P) }
    ensures inside { IfOk result (λ c. IsTrue wanted → (h : ℕ)
        → h < length log.now.complex.boundaries
        → Same P (coefficient c h) (scale * total (length log.now.complex.boundaries)
        (λ t. coefficient single.now t * project_of P log.now.complex log.now.steps (one h) t))) }
    ensures past { IfOk result (λ c. IsTrue wanted → (h : ℕ) → length log.now.complex.boundaries ≤ h
        → Same P (coefficient c h) (scale * coefficient single.now h)) }
{
    if !wanted {
        return Ok(Chain::empty(alloc));
    }
    let projected = log.transposed_projection(alloc, field, single)?;
    let cocycle = scaled(alloc, field, scale, projected)?;
    Ok(cocycle)
}

// A number times a chain.
fn scaled<const P: u16>(
    alloc: Global,
    field: Field<P>,
    scale: u16,
    chain: Chain<P>,
) -> Result<Chain<P>, AllocError>
    requires { scale < P }
    ensures normal { IfOk result (IsNormal P) }
    ensures value { IfOk result (λ c. (g : ℕ)
        → coefficient c g ≡ (scale * coefficient chain.entry g) % P) }
{
    if chain.is_empty() {
        return Ok(chain);
    }
    if scale == 1 {
        return Ok(chain);
    }
    let mut sum = Chain::empty(alloc);
    sum.add_scaled(field, scale, &chain)?;
    Ok(sum)
}
