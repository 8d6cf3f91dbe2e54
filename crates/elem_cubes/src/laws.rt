//! Laws of cells, their faces and their boundary: each is the contract of a function that does
//! nothing.
ghost use Rattle.elem_cubes.specs.Range.{RangeIsOfTheFormats};
ghost use Rattle.elem_cubes.specs.Covers.{CoversAreAll};
ghost use Rattle.elem_cubes.specs.Laws.{CellsHaveParts, FacesAreTransitive, FacesStayInRange, FacesAreFacets, CofacesAreAll, BoundaryIsOverCofaces, ClosuresAreFaces, FacetsAreUnits, BoundaryOfBoundaryIsZero, BoundaryAtIsBoundary, OrderIsTotal, ChangesKeepOrder};

/// The numbers of the program are those that the formats state.
pub fn range_is_of_the_formats()
    ensures { RangeIsOfTheFormats }
{}

pub fn cells_have_parts()
    ensures { CellsHaveParts }
{}

pub fn faces_are_transitive()
    ensures { FacesAreTransitive }
{}

pub fn faces_stay_in_range()
    ensures { FacesStayInRange }
{}

pub fn faces_are_facets()
    ensures { FacesAreFacets }
{}

pub fn cofaces_are_all()
    ensures { CofacesAreAll }
{}

pub fn boundary_is_over_cofaces()
    ensures { BoundaryIsOverCofaces }
{}

pub fn closures_are_faces()
    ensures { ClosuresAreFaces }
{}

pub fn covers_are_all()
    ensures { CoversAreAll }
{}

pub fn facets_are_units()
    ensures { FacetsAreUnits }
{}

pub fn boundary_of_boundary_is_zero()
    ensures { BoundaryOfBoundaryIsZero }
{}

pub fn boundary_at_is_boundary()
    ensures { BoundaryAtIsBoundary }
{}

pub fn order_is_total()
    ensures { OrderIsTotal }
{}

pub fn changes_keep_order()
    ensures { ChangesKeepOrder }
{}
