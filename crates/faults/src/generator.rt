//! Generators of chains, as they are printed.
ghost use Rattle.std.specs.Prelude.{◌≡◌, ◌++◌, OnOk, List, ℕ};
ghost use Rattle.faults.specs.ChainText.{cell_text, number_text};

use corner_texts::put_corner;
use elem_cubes::Cell;
use itoa::Buffer;
use std::alloc::AllocError as NoMemory;

/// A generator that has a text.
pub trait Generator {
    /// How it is printed.
    ghost text: { Self → List ℕ };

    /// Adds its text.
    fn put(&self, to: &mut Vec<u8>) -> Result<(), NoMemory>
        ensures { OnOk result (to.new.items ≡ to.old.items ++ text self.now) };
}

impl Generator for Cell {
    ghost text = { cell_text };

    fn put(&self, to: &mut Vec<u8>) -> Result<(), NoMemory> {
        to.extend_from_slice(b"[")?;
        put_corner(to, &self.lower())?;
        put_corner(to, &self.upper())?;
        to.extend_from_slice(b"]")
    }
}

impl Generator for u32 {
    ghost text = { number_text };

    fn put(&self, to: &mut Vec<u8>) -> Result<(), NoMemory> {
        let mut buffer = Buffer::new();
        to.extend_from_slice(b"#")?;
        to.extend_from_slice(buffer.format(*self).as_bytes())
    }
}
