//! Matrices by their rows, which contracts see as lists of lists of entries.
ghost use Rattle.std.specs.Prelude.{◌≡◌, map};

use std::marker::Model;

/// The rows of a matrix, each the list of its entries, by column.
#[derive(Drop)]
pub struct Rows {
    rows: Vec<Vec<u16>>,
}

impl Model for Rows {
    ghost use Rattle.std.specs.Prelude.{List, ℕ, map};

    ghost Value = { List (List ℕ) };

    ghost view = { λ r. map (λ row. row.items) r.rows.items };
}

impl Rows {
    /// These rows.
    pub fn of(rows: Vec<Vec<u16>>) -> Rows
        ensures { result ≡ map (λ row. row.items) rows.items }
    {
        Rows { rows }
    }

    /// The rows in order.
    pub fn as_slice(&self) -> &[Vec<u16>]
        ensures { map (λ row. row.items) result.now ≡ self.now }
    {
        self.rows.as_slice()
    }
}
