//! Set files, read and written.
ghost use Rattle.std.specs.Prelude.{◌≡◌, ◌≤◌, List, ℕ, length, IfOk, IfErr, IsTrue};
ghost use Rattle.std.specs.List.{list_all};
ghost use Rattle.elem_cubes.specs.Cells.{is_wide};
ghost use Rattle.grid_files.specs.SetFile.{HasValue, IsRefusedAt};
ghost use Rattle.grid_files.specs.Faults.{IsFaultOf};

use crate::fault::{Kind, TextFault};
use crate::reader::Reader;
use crate::scanner::Carry;
use cube_sets::{CUBES, CubeSet};
use std::alloc::Global;

/// The set of a set file: the value of the text, or the place and the cause of its refusal. With
/// `Kind::Full` full cubes alone are read. A set that is read has at most `CUBES` members.
pub fn read_set(alloc: Global, bytes: &[u8], kind: Kind) -> Result<CubeSet, TextFault>
    ensures value { IfOk result (λ set. HasValue kind bytes.now set) }
    ensures few { IfOk result (λ set. length set.cells ≤ CUBES) }
    ensures full { kind ≡ Kind.Full
        → IfOk result (λ set. IsTrue (list_all (list_all is_wide) set.cells)) }
    ensures refusal { IfErr result (IsFaultOf kind bytes.now) }
{
    let mut reader = Reader::new(alloc, kind);
    let mut carry = Carry::Between;
    for place in 0..bytes.len() {
        match reader.feed(carry, place as u64, bytes[place]) {
            Ok(next) => carry = next,
            Err(fault) => return Err(fault),
        }
    }
    match reader.feed(carry, bytes.len() as u64, b'\n') {
        Ok(_) => reader.finish(),
        Err(fault) => Err(fault),
    }
}
