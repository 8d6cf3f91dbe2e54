//! Laws over the definitions alone, each the contract of a function that does nothing.
ghost use Rattle.excision.specs.Laws.{MovesLeaveRestrictions, FacesLeaveRestrictions, ExcisionKeepsCells, TouchingCellsShareVertices, ReductionsShowAcyclicity};

/// One move of a growth takes exactly the new faces of its cube, and leaves restrictions.
#[tactic(auto, using(crate::proofs::Moving::moves))]
pub fn moves_leave_restrictions()
    ensures { MovesLeaveRestrictions }
{}

/// Steps that take exactly the faces of some cubes leave restrictions.
#[tactic(auto, using(crate::proofs::Moving::faces))]
pub fn faces_leave_restrictions()
    ensures { FacesLeaveRestrictions }
{}

/// Excision keeps the relative cells and the growths.
#[tactic(auto, using(crate::proofs::Touching::excision_keeps))]
pub fn excision_keeps_cells()
    ensures { ExcisionKeepsCells }
{}

/// Two cells share a point exactly where they have a vertex in common.
#[tactic(auto, using(crate::proofs::Touching::share_vertices))]
pub fn touching_cells_share_vertices()
    ensures { TouchingCellsShareVertices }
{}

/// A list of cells with all their faces is acyclic exactly where a reduction leaves one vertex.
#[tactic(auto, using(crate::proofs::Points::show))]
pub fn reductions_show_acyclicity()
    ensures { ReductionsShowAcyclicity }
{}
