//! Images of cells and of chains under the map that doubles, modulo 3.

use crate::doubling::{cell_of_line, doubling};
use chain_selector::Selector;
use chains::Chain;
use elem_cubes::Cell;
use field_mod::Field;
use pair_maps::carrier_of;
use std::alloc::Global;

// A selector of the map that doubles.
fn selector_of_doubling(alloc: Global, field: Field<3>) -> Option<Selector<3>> {
    let Some(input) = doubling(alloc) else {
        return None;
    };
    let Ok(carrier) = carrier_of(alloc, field, &input) else {
        return None;
    };
    match Selector::new(alloc, field, carrier) {
        Ok(selector) => Some(selector),
        Err(_) => None,
    }
}

// The image of a cell, where it is one of the domain.
fn image_at(selector: &mut Selector<3>, field: Field<3>, cell: &Cell) -> Option<Chain<3>> {
    let Some(_number) = selector.domain_cells().number(cell) else {
        return None;
    };
    match selector.image(field, cell) {
        Ok(image) => Some(image),
        Err(_) => None,
    }
}

// The image of a cell of the domain as a chain of one term.
fn image_of_number(
    alloc: Global,
    selector: &mut Selector<3>,
    field: Field<3>,
    number: u32,
) -> Option<Chain<3>> {
    let Ok(chain) = Chain::from_terms(alloc, field, &[(number, 1)]) else {
        return None;
    };
    if chain.len() != 1 {
        return None;
    }
    if chain.term(0).0 >= selector.domain_cells().len() {
        return None;
    }
    match selector.image_of_chain(field, &chain) {
        Ok(image) => Some(image),
        Err(_) => None,
    }
}

// Whether a chain has these terms alone.
fn has_terms(chain: &Chain<3>, terms: &[(u32, u16)]) -> bool {
    let mut are_there = chain.len() == terms.len();
    for term in terms {
        are_there = are_there && chain.coefficient(term.0) == term.1;
    }
    are_there
}

// Whether a cell of the domain has this number and this image, alone and as a chain. It is asked
// for twice, since what was kept has to be found again.
fn is_sent_to(at: i32, is_segment: bool, alloc: Global, number: u32, image: &[(u32, u16)]) -> bool {
    let (Some(field), Some(cell)) = (Field::<3>::get(), cell_of_line(at, is_segment)) else {
        return false;
    };
    let Some(mut selector) = selector_of_doubling(alloc, field) else {
        return false;
    };
    if selector.domain_cells().number(&cell) != Some(number) {
        return false;
    }
    let Some(first) = image_at(&mut selector, field, &cell) else {
        return false;
    };
    let Some(second) = image_of_number(alloc, &mut selector, field, number) else {
        return false;
    };
    has_terms(&first, image) && has_terms(&second, image)
}

// Cells of the domain are the vertices from -2 to 2 and the segments between them, in this order by
// turns, from 0; those of the range the same from -4 to 4. The vertices -1, 0 and 1 have one vertex
// as their value, their double. So the image of the segment behind -1, and of that behind 0, has to
// be the two segments between the doubles of its ends.
#[test]
fn vertices_are_doubled_and_segments_follow(rt: HostRuntime) {
    for (at, is_segment, number, image) in [
        (0, false, 4, &[(8, 1)][..]),
        (-1, false, 2, &[(4, 1)][..]),
        (-1, true, 3, &[(5, 1), (7, 1)][..]),
        (0, true, 5, &[(9, 1), (11, 1)][..]),
    ] {
        assert!(rt; is_sent_to(at, is_segment, rt.alloc(), number, image));
    }
}
