//! The selector.
ghost use Rattle.std.specs.Prelude.{◌≡◌, ◌+◌, ◌<◌, ℕ, true, false, List, length, slice_index_or};
ghost use Rattle.std.specs.Prelude.{None, IfOk, OnOk, IsTrue};
ghost use Rattle.elem_cubes.specs.Cells.{Factor, dimension_of};
ghost use Rattle.cube_sets.specs.Closures.{is_cell_of};
ghost use Rattle.chain_selector.specs.Right.{IsValueOf, HasKeptFaces, IsRightImage};
ghost use Rattle.chain_selector.specs.Selections.{domain_cells, range_cells, is_kept, kept_terms};
ghost use Rattle.chain_selector.specs.Selections.{Extends, IsInDomain, AreKept, IsImageOf};
ghost use Rattle.chain_selector.specs.Selections.{IsOfOneMap, IsSelection};

use crate::boundary::boundary_of;
use crate::filling::{filling_of, first_vertex};
use crate::renumbering::renumbered;
use crate::sums::push_scaled;
use cell_complex::Numbered;
use chains::Chain;
use elem_cubes::Cell;
use field_mod::Field;
use map_checks::Carrier;
use std::alloc::{AllocError as NoMemory, Global};
use std::marker::Model;

/// Images of cells under one chain map that a carrier's map carries: each is made when it is first
/// asked for, from those of the faces, and kept. It is seen as the carrier and, by the numbers of
/// the cells of the domain, the kept images.
#[derive(Drop)]
pub struct Selector<const P: u16> {
    carrier: Carrier<P>,
    images: Vec<Option<Chain<P>>>,
    alloc: Global,
}

impl<const P: u16> Model for Selector<P> {
    ghost use Rattle.chain_selector.specs.Selections.{Selection, IsSelection};

    ghost Value = { Selection };

    ghost view = { λ s. record { carrying = s.carrier; images = s.images.items } };

    ghost invariant = { λ s.
        IsSelection P (record { carrying = s.carrier; images = s.images.items }) };
}

impl<const P: u16> Selector<P> {
    /// A selector that keeps no image yet.
    pub fn new(alloc: Global, field: Field<P>, carrier: Carrier<P>) -> Result<Selector<P>, NoMemory>
        ensures carrier { IfOk result (λ s. s.carrying ≡ carrier.entry) }
        ensures none { IfOk result (λ s. (q : List Factor) → is_kept s q ≡ false) }
    {
        // Its clauses say what a carrier is.
        let _dimension = carrier.dimension();
        let images = no_images(alloc, carrier.domain_cells().len())?;
        Ok(Selector {
            carrier,
            images,
            alloc,
        })
    }

    /// The image of a cell of the domain, a chain over the numbers of the cells of the range. Where
    /// memory is wanting, more images may be kept than before.
    pub fn image(&mut self, field: Field<P>, cell: &Cell) -> Result<Chain<P>, NoMemory>
        requires { IsTrue (is_cell_of self.old.carrying.domain cell.now) }
        ensures extends { Extends self.old self.new }
        ensures kept { OnOk result (is_kept self.new cell.now ≡ true) }
        ensures value { IfOk result (λ image. image ≡ kept_terms self.new cell.now) }
        ensures one_map { IsOfOneMap P self.new }
    {
        self.settle(field, cell)?;
        self.copy_of_image(cell)
    }

    /// The image of a chain over the numbers of the cells of the domain: the sum of the images of
    /// its cells, each times its coefficient.
    pub fn image_of_chain(
        &mut self,
        field: Field<P>,
        chain: &Chain<P>,
    ) -> Result<Chain<P>, NoMemory>
        requires { IsInDomain self.old chain.now }
        ensures extends { Extends self.old self.new }
        ensures kept { OnOk result (AreKept self.new chain.now) }
        ensures value { IfOk result (IsImageOf P self.new chain.now) }
        ensures one_map { IsOfOneMap P self.new }
    {
        self.settle_chain(field, chain)?;
        self.sum_of_images(field, chain)
    }

    /// The cells of the domain.
    pub fn domain_cells(&self) -> &Numbered
        ensures { result.now ≡ domain_cells self.now }
    {
        self.carrier.domain_cells()
    }

    /// The cells of the range.
    pub fn range_cells(&self) -> &Numbered
        ensures { result.now ≡ range_cells self.now }
    {
        self.carrier.range_cells()
    }

    /// The known dimension of the carrier, or 0. Its clauses hand out what a selector keeps.
    pub fn dimension(&self) -> u8
        ensures dimension { result ≡ self.now.carrying.dimension }
        ensures selection { IsSelection P self.now }
    {
        self.carrier.dimension()
    }

    // A copy of the kept image of a cell.
    fn copy_of_image(&self, cell: &Cell) -> Result<Chain<P>, NoMemory>
        requires { is_kept self.now cell.now ≡ true }
        ensures { IfOk result (λ image. image ≡ kept_terms self.now cell.now) }
    {
        // Its clauses hand out what a selector keeps.
        let _dimension = self.dimension();
        let Some(number) = self.domain_cells().number(cell) else {
            unreachable!();
        };
        match &self.images[number as usize] {
            Some(image) => image.copy(self.alloc),
            None => unreachable!(),
        }
    }

    // Whether a cell has a kept image.
    fn keeps(&self, cell: &Cell) -> bool
        ensures { result ≡ is_kept self.now cell.now }
    {
        // Its clauses hand out what a selector keeps.
        let _dimension = self.dimension();
        let Some(number) = self.domain_cells().number(cell) else {
            return false;
        };
        self.images[number as usize].is_some()
    }

    // The sum of the kept images of the cells of a chain, each times its coefficient.
    fn sum_of_images(&self, field: Field<P>, chain: &Chain<P>) -> Result<Chain<P>, NoMemory>
        requires domain { IsInDomain self.now chain.now }
        requires kept { AreKept self.now chain.now }
        ensures { IfOk result (IsImageOf P self.now chain.now) }
    {
        let mut terms = Vec::new(self.alloc);
        for place in 0..chain.len() {
            let (number, coefficient) = chain.term(place);
            match &self.images[number as usize] {
                Some(image) => push_scaled(field, coefficient, image, &mut terms)?,
                None => unreachable!(),
            }
        }
        let sum = Chain::from_terms(self.alloc, field, &terms)?;
        Ok(sum)
    }

    // Sees to it that the cells of a chain have kept images.
    fn settle_chain(&mut self, field: Field<P>, chain: &Chain<P>) -> Result<(), NoMemory>
        requires { IsInDomain self.old chain.now }
        ensures extends { Extends self.old self.new }
        ensures kept { OnOk result (AreKept self.new chain.now) }
        ensures selection { IsSelection P self.new }
    {
        // Its clauses hand out what a selector keeps.
        let _dimension = self.dimension();
        for place in 0..chain.len() {
            let (number, _) = chain.term(place);
            let cell = self.domain_cells().cell(number);
            self.settle(field, &cell)?;
        }
        Ok(())
    }

    // Sees to it that a cell of the domain has a kept image: lower faces first.
    fn settle(&mut self, field: Field<P>, cell: &Cell) -> Result<(), NoMemory>
        requires { IsTrue (is_cell_of self.old.carrying.domain cell.now) }
        ensures extends { Extends self.old self.new }
        ensures kept { OnOk result (is_kept self.new cell.now ≡ true) }
        ensures selection { IsSelection P self.new }
    {
        // Its clauses hand out what a selector keeps.
        let _dimension = self.dimension();
        if self.keeps(cell) {
            return Ok(());
        }
        for dimension in 0..cell.dim() + 1 {
            self.settle_faces(field, cell, dimension)?;
        }
        Ok(())
    }

    // Sees to it that the faces of one dimension have kept images, where the lower ones have.
    fn settle_faces(&mut self, field: Field<P>, cell: &Cell, dimension: u32) -> Result<(), NoMemory>
        requires domain { IsTrue (is_cell_of self.old.carrying.domain cell.now) }
        requires lower { HasKeptFaces self.old cell.now dimension }
        ensures extends { Extends self.old self.new }
        ensures kept { OnOk result (HasKeptFaces self.new cell.now (dimension + 1)) }
        ensures selection { IsSelection P self.new }
    {
        // Its clauses hand out what a selector keeps.
        let _dimension = self.dimension();
        for face in cell.closure() {
            if face.dim() != dimension {
                continue;
            }
            self.keep(field, &face)?;
        }
        Ok(())
    }

    // Sees to it that a cell whose lower faces have kept images has one.
    fn keep(&mut self, field: Field<P>, cell: &Cell) -> Result<(), NoMemory>
        requires domain { IsTrue (is_cell_of self.old.carrying.domain cell.now) }
        requires faces { HasKeptFaces self.old cell.now (dimension_of cell.now) }
        ensures extends { Extends self.old self.new }
        ensures kept { OnOk result (is_kept self.new cell.now ≡ true) }
        ensures selection { IsSelection P self.new }
    {
        // Its clauses hand out what a selector keeps.
        let _dimension = self.dimension();
        if self.keeps(cell) {
            return Ok(());
        }
        let image = self.right_image(field, cell)?;
        let Some(number) = self.domain_cells().number(cell) else {
            unreachable!();
        };
        self.images[number as usize] = Some(image);
        Ok(())
    }

    // A right image of a cell whose lower faces have kept ones: a vertex of its value, or a chain
    // on it that fills the image of its boundary.
    fn right_image(&self, field: Field<P>, cell: &Cell) -> Result<Chain<P>, NoMemory>
        requires domain { IsTrue (is_cell_of self.now.carrying.domain cell.now) }
        requires faces { HasKeptFaces self.now cell.now (dimension_of cell.now) }
        ensures { IfOk result (IsRightImage P self.now cell.now) }
    {
        let value = self.value(cell)?;
        if cell.dim() == 0 {
            return self.vertex_image(field, cell, &value);
        }
        self.filled_image(field, cell, &value)
    }

    // The value at a cell of the domain.
    fn value(&self, cell: &Cell) -> Result<Numbered, NoMemory>
        requires { IsTrue (is_cell_of self.now.carrying.domain cell.now) }
        ensures { IfOk result (IsValueOf self.now cell.now) }
    {
        // Its clauses say what a carrier is.
        let _dimension = self.carrier.dimension();
        let cells = self.carrier.value(self.alloc, cell)?;
        let value = Numbered::of_sorted(self.alloc, &cells)?;
        Ok(value)
    }

    // A right image of a vertex: the first vertex of its value.
    fn vertex_image(
        &self,
        field: Field<P>,
        cell: &Cell,
        value: &Numbered,
    ) -> Result<Chain<P>, NoMemory>
        requires domain { IsTrue (is_cell_of self.now.carrying.domain cell.now) }
        requires value { IsValueOf self.now cell.now value.now }
        requires vertex { dimension_of cell.now ≡ 0 }
        ensures { IfOk result (IsRightImage P self.now cell.now) }
    {
        // Its clauses hand out what a selector keeps.
        let _dimension = self.dimension();
        let place = first_vertex(value);
        let vertex = Chain::from_terms(self.alloc, field, &[(place, 1)])?;
        let image = renumbered(self.alloc, field, &vertex, value, self.range_cells())?;
        Ok(image)
    }

    // A right image of a cell of higher dimension: a chain on its value that fills the image of its
    // boundary, a cycle there.
    fn filled_image(
        &self,
        field: Field<P>,
        cell: &Cell,
        value: &Numbered,
    ) -> Result<Chain<P>, NoMemory>
        requires domain { IsTrue (is_cell_of self.now.carrying.domain cell.now) }
        requires value { IsValueOf self.now cell.now value.now }
        requires faces { HasKeptFaces self.now cell.now (dimension_of cell.now) }
        requires higher { 0 < dimension_of cell.now }
        ensures { IfOk result (IsRightImage P self.now cell.now) }
    {
        // Its clauses hand out what a selector keeps.
        let _dimension = self.dimension();
        let boundary = boundary_of(self.alloc, field, self.domain_cells(), cell)?;
        let around = self.sum_of_images(field, &boundary)?;
        let cycle = renumbered(self.alloc, field, &around, self.range_cells(), value)?;
        let filling = filling_of(self.alloc, field, value, &cycle)?;
        let image = renumbered(self.alloc, field, &filling, value, self.range_cells())?;
        Ok(image)
    }
}

// As many places without an image.
fn no_images<const P: u16>(alloc: Global, count: u32) -> Result<Vec<Option<Chain<P>>>, NoMemory>
    ensures count { IfOk result (λ images. length images.items ≡ count) }
    ensures none { IfOk result (λ images. (i : ℕ) → slice_index_or images.items i None ≡ None) }
{
    let mut images = Vec::with_capacity(alloc, count as usize)?;
    for _index in 0..count {
        images.push(None)?;
    }
    Ok(images)
}
