//! Gauss-Jordan elimination, one row after the other.
ghost use Rattle.std.specs.Prelude.{◌≡◌, ℕ, ◌+◌, ◌-◌, ◌*◌, ◌%◌, ◌<◌, ◌≤◌, ◌≢◌, [], length, slice_index, slice_index_or, OnOk, IfOk, MatchOption};
ghost use Rattle.field_mod.specs.Modular.{Same, minus};
ghost use Rattle.leray_conley.specs.Echelons.{AreFree, HasEchelon, IsExtended, along, cell, kernel_matrix};
ghost use Rattle.leray_conley.specs.Kernels.{IsInKernel};

use crate::row::Row;
use field_mod::Field;
use std::alloc::{AllocError, Global};

/// Rows in reduced form: row k has its first entry that is not 0 in column `pivots[k]`, it is 1,
/// and the other rows are 0 there.
#[derive(Drop)]
pub struct Echelon<const P: u16> {
    pub rows: Vec<Row<P>>,
    pub pivots: Vec<usize>,
}

/// Subtracts from a row what it has along the rows in reduced form.
fn clear_row<const P: u16>(f: Field<P>, echelon: &Echelon<P>, row: &mut Row<P>)
    requires form { HasEchelon P (length row.old) echelon.now.rows.items echelon.now.pivots.items }
    ensures len { length row.new ≡ length row.old }
    ensures cleared { (k : ℕ) → k < length echelon.now.rows.items
        → Same P (slice_index row.new (slice_index echelon.now.pivots.items k)) 0 }
    ensures kernel { (v : ℕ → ℕ) → IsInKernel P (length echelon.now.rows.items) (length row.old)
        (cell echelon.now.rows.items) v
        → Same P (along (length row.old) (slice_index row.new) v)
        (along (length row.old) (slice_index row.old) v) }
{
    for k in 0..echelon.rows.len() {
        let by = f.neg(row.entry(echelon.pivots[k]));
        row.add_scaled(by, &echelon.rows[k]);
    }
}

/// Subtracts a row from others so that they are 0 in column `c`, where that row is 1.
fn clear_column<const P: u16>(f: Field<P>, rows: &mut Vec<Row<P>>, c: usize, row: &Row<P>)
    requires widths { (k : ℕ) → k < length rows.old.items
        → length (slice_index_or rows.old.items k []) ≡ length row.now }
    requires column { c < length row.now }
    ensures len { length rows.new.items ≡ length rows.old.items }
    ensures widths { (k : ℕ) → k < length rows.old.items
        → length (slice_index_or rows.new.items k []) ≡ length row.now }
    ensures value { (k j : ℕ) → k < length rows.old.items → j < length row.now
        → Same P (cell rows.new.items k j)
        (cell rows.old.items k j + minus P (cell rows.old.items k c) * slice_index row.now j) }
{
    for k in 0..rows.len() {
        let other = &mut rows[k];
        let by = f.neg(other.entry(c));
        other.add_scaled(by, row);
    }
}

impl<const P: u16> Echelon<P> {
    /// No rows.
    pub fn new(alloc: Global) -> Echelon<P>
        ensures rows { result.rows.items ≡ [] }
        ensures pivots { result.pivots.items ≡ [] }
    {
        Echelon {
            rows: Vec::new(alloc),
            pivots: Vec::new(alloc),
        }
    }

    /// Takes one more row in.
    pub fn insert(&mut self, f: Field<P>, row: Row<P>) -> Result<(), AllocError>
        requires form { HasEchelon P (length row) self.old.rows.items self.old.pivots.items }
        ensures form { OnOk result (HasEchelon P (length row.entry) self.new.rows.items
            self.new.pivots.items) }
        ensures kernel { OnOk result (IsExtended P (length row.entry) (length self.old.rows.items)
            (length self.new.rows.items)
            (cell self.old.rows.items) (slice_index row.entry) (cell self.new.rows.items)) }
    {
        let mut row = row;
        clear_row(f, self, &mut row);
        if let Some(c) = row.leading() {
            row.scale(f.inv(row.entry(c)));
            clear_column(f, &mut self.rows, c, &row);
            self.rows.push(row)?;
            self.pivots.push(c)?;
        }
        Ok(())
    }

    /// The row whose pivot is in a column.
    pub fn row_of(&self, column: usize) -> Option<usize>
        ensures { MatchOption result ((k : ℕ) → k < length self.now.pivots.items
            → slice_index self.now.pivots.items k ≢ column)
            (λ k. (k < length self.now.pivots.items)
            × (slice_index self.now.pivots.items k ≡ column)) }
    {
        for k in 0..self.pivots.len() {
            if self.pivots[k] == column {
                return Some(k);
            }
        }
        None
    }

    /// Adds a column to the columns without a pivot, if it has none.
    fn take_free(&self, free: &mut Vec<usize>, column: usize) -> Result<(), AllocError>
        requires { AreFree column self.now.pivots.items free.old.items }
        ensures { OnOk result (AreFree (column + 1) self.now.pivots.items free.new.items) }
    {
        match self.row_of(column) {
            Some(_) => Ok(()),
            None => {
                free.push(column)?;
                Ok(())
            }
        }
    }

    /// The columns below `n` that have no pivot.
    pub fn free_columns(&self, alloc: Global, n: usize) -> Result<Vec<usize>, AllocError>
        ensures { IfOk result (λ free. AreFree n self.now.pivots.items free.items) }
    {
        let mut free = Vec::new(alloc);
        for column in 0..n {
            self.take_free(&mut free, column)?;
        }
        Ok(free)
    }

    /// The vector of the kernel that is 1 at column `c` and 0 at the other columns without a pivot.
    pub fn kernel_column(
        &self,
        alloc: Global,
        f: Field<P>,
        n: usize,
        c: usize,
    ) -> Result<Vec<u16>, AllocError>
        requires form { HasEchelon P n self.now.rows.items self.now.pivots.items }
        requires column { c < n }
        ensures len { IfOk result (λ v. length v.items ≡ n) }
        ensures below { IfOk result (λ v. (l : ℕ) → l < n → slice_index v.items l < P) }
        ensures value { IfOk result (λ v. (l : ℕ) → l < n → Same P (slice_index v.items l)
            (kernel_matrix P (length self.now.rows.items) (cell self.now.rows.items)
            (slice_index self.now.pivots.items) l c)) }
    {
        let mut vector = vec![in alloc; 0u16; n]?;
        vector[c] = 1;
        for k in 0..self.rows.len() {
            let l = self.pivots[k];
            vector[l] = f.sub(vector[l], self.rows[k].entry(c));
        }
        Ok(vector)
    }
}
