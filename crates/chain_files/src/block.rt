//! The generators of one degree.
ghost use Rattle.std.specs.Prelude.{◌≡◌, ◌+◌, ◌≤◌};
ghost use Rattle.chain_files.specs.Known.{number_in};
ghost use Rattle.chain_files.specs.Numbers.{most_generators};

/// The generators of one degree by their numbers: the first, and how many there are.
#[derive(Clone, Copy)]
pub(crate) struct Block {
    pub(crate) first: u32,
    pub(crate) count: u32,
}

impl Block {
    /// The number of the generator that a file calls `z`, from 1 on, if there is one.
    pub(crate) fn number(self, z: i64) -> Option<u32>
        requires { self.first + self.count ≤ most_generators }
        ensures { result ≡ number_in self z }
    {
        match u64::try_from(z) {
            Ok(n) if n > 0 && n <= u64::from(self.count) => Some(self.first + (n as u32 - 1)),
            _ => None,
        }
    }
}
