//! The steps whose equations are due.
ghost use Rattle.std.specs.Prelude.{◌≡◌, ℕ, ◌<◌, ◌⊎◌, true, false, OnOk, IfSome, IfNone};
ghost use Rattle.std.specs.Ordering.{nat_cmp};
ghost use Rattle.std.specs.BTreeSet.{contains};
ghost use Rattle.algebraic_reduction.specs.Parts.{StayDue};

use std::alloc::AllocError;
use std::collections::BTreeSet;

/// One more step is due.
pub fn insert_due(due: &mut BTreeSet<u32>, place: u32) -> Result<(), AllocError>
    ensures kept { OnOk result (StayDue (contains nat_cmp due.old) (contains nat_cmp due.new)) }
    ensures added { OnOk result (contains nat_cmp due.new place ≡ true) }
    ensures others { OnOk result ((j : ℕ) → contains nat_cmp due.new j ≡ true
        → (contains nat_cmp due.old j ≡ true) ⊎ (j ≡ place)) }
{
    let _ = due.insert(place)?;
    Ok(())
}

/// The last step that is due, which then is not.
pub fn pop_due(due: &mut BTreeSet<u32>) -> Option<u32>
    ensures member { IfSome result (λ i. contains nat_cmp due.old i ≡ true) }
    ensures kept { IfSome result (λ i. (j : ℕ) → contains nat_cmp due.old j ≡ true
        → (j ≡ i) ⊎ (contains nat_cmp due.new j ≡ true)) }
    ensures below { IfSome result (λ i. (j : ℕ) → contains nat_cmp due.new j ≡ true → j < i) }
    ensures none { IfNone result ((j : ℕ) → contains nat_cmp due.old j ≡ false) }
{
    due.pop_last()
}
