//! Laws over the definitions alone, each the contract of a function that does nothing.
ghost use Rattle.induced_map.specs.Laws.{ProductsAreTheMatrix};

/// The products of the images under one carried map with the dual cocycles are the matrix of every
/// carried map.
pub fn products_are_the_matrix()
    ensures { ProductsAreTheMatrix }
{}
