//! Map files, read.
ghost use Rattle.std.specs.Prelude.{◌≡◌, IfOk, IfErr};
ghost use Rattle.map_files.specs.MapFile.{HasValue};
ghost use Rattle.map_files.specs.Faults.{IsFaultOf};

use crate::reader::Reader;
use cube_maps::CubeMap;
use grid_files::{Carry, TextFault};
use std::alloc::Global;

/// The map of a map file: the value of the text, or the place and the cause of its refusal.
pub fn read_map(alloc: Global, bytes: &[u8]) -> Result<CubeMap, TextFault>
    ensures value { IfOk result (HasValue bytes.now) }
    ensures refusal { IfErr result (IsFaultOf bytes.now) }
{
    let mut reader = Reader::new(alloc);
    let mut carry = Carry::Between;
    for place in 0..bytes.len() {
        match reader.feed(carry, place as u64, bytes[place]) {
            Ok(next) => carry = next,
            Err(fault) => return Err(fault),
        }
    }
    match reader.feed(carry, bytes.len() as u64, b'\n') {
        Ok(_) => reader.finish(alloc),
        Err(fault) => Err(fault),
    }
}
