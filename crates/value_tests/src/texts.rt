//! Sets and maps by their texts.
use cube_maps::CubeMap;
use cube_sets::CubeSet;
use grid_files::{Kind, read_set};
use map_files::read_map;
use std::alloc::Global;

// The set of a text, where it has one.
pub(crate) fn set_of(alloc: Global, text: &str) -> Option<CubeSet> {
    match read_set(alloc, text.as_bytes(), Kind::Any) {
        Ok(set) => Some(set),
        Err(_) => None,
    }
}

// The map of a text, where it has one.
pub(crate) fn map_of(alloc: Global, text: &str) -> Option<CubeMap> {
    match read_map(alloc, text.as_bytes()) {
        Ok(map) => Some(map),
        Err(_) => None,
    }
}

// The set of all cells of the set of a text.
pub(crate) fn faces_of(alloc: Global, text: &str) -> Option<CubeSet> {
    let Some(set) = set_of(alloc, text) else {
        return None;
    };
    match set.closure(alloc) {
        Ok(faces) => Some(faces),
        Err(_) => None,
    }
}
