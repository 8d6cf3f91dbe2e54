//! The law of maps, the contract of a function that does nothing.
ghost use Rattle.cube_maps.specs.CubeMaps.{LimitIsOfTheFormats};

/// The limit of the program is the number that the formats state.
pub fn limit_is_of_the_formats()
    ensures { LimitIsOfTheFormats }
{}
