//! Laws over the definitions alone, each the contract of a function that does nothing.
ghost use Rattle.face_reduction.specs.Laws.{CollapsesLeaveRestrictions, FreePairsAreUnits, CollapsesGoOn};

/// The steps of a growth and free pairs after it leave restrictions.
#[tactic(auto, using(crate::proofs::Pairing::restrict))]
pub fn collapses_leave_restrictions()
    ensures { CollapsesLeaveRestrictions }
{}

/// A free pair of the cells that are left may be reduced; its incidence number is 1 or -1.
#[tactic(auto, using(crate::proofs::Pairing::units))]
pub fn free_pairs_are_units()
    ensures { FreePairsAreUnits }
{}

/// Further steps by free pairs go on with a collapse.
#[tactic(auto, using(crate::proofs::Pairing::go_on))]
pub fn collapses_go_on()
    ensures { CollapsesGoOn }
{}
