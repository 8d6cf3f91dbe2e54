//! The rows of a matrix in reduced form.
ghost use Rattle.std.specs.Prelude.{◌≡◌, ℕ, ◌+◌, ◌*◌, ◌<◌, ◌≤◌, length, slice_index, IfOk};
ghost use Rattle.leray_conley.specs.Echelons.{IsReduction};
ghost use Rattle.leray_conley.specs.Products.{identity};
ghost use Rattle.leray_conley.specs.Rows.{IsRowOf};
ghost use Rattle.leray_conley.specs.Splitting.{beside};
ghost use Rattle.leray_conley.specs.Tables.{entry};

use crate::echelon::Echelon;
use crate::matrix::Matrix;
use crate::row::Row;
use field_mod::Field;
use std::alloc::{AllocError, Global};

impl<const P: u16> Matrix<P> {
    /// Row `i`, and row `i` of the identity with `extra` columns beside it.
    fn widened_row(&self, alloc: Global, i: u32, extra: u32) -> Result<Row<P>, AllocError>
        requires prime { 1 < P }
        requires row { i < self.now.rows }
        ensures { IfOk result (IsRowOf (self.now.columns + extra)
            (beside self.now.columns (entry self.now) identity i)) }
    {
        let mut row = Row::of(alloc, self.row(i))?;
        for j in 0..extra {
            row.push(u16::from(j == i))?;
        }
        Ok(row)
    }

    /// Reduces the rows of this matrix with those of the identity with `extra` columns beside them.
    pub(crate) fn reduce(
        &self,
        alloc: Global,
        f: Field<P>,
        extra: u32,
    ) -> Result<Echelon<P>, AllocError>
        ensures { IfOk result (λ e. IsReduction P (self.now.columns + extra) self.now.rows
            (beside self.now.columns (entry self.now) identity) e.rows.items e.pivots.items) }
    {
        let mut echelon = Echelon::new(alloc);
        for i in 0..self.rows() {
            let row = self.widened_row(alloc, i, extra)?;
            echelon.insert(f, row)?;
        }
        Ok(echelon)
    }
}
