//! Refusals of chain files.
ghost use Rattle.std.specs.Prelude.{◌≡◌, ◌⊎◌};
ghost use Rattle.chain_tool.specs.Contents.{chain_fault};

use chain_files::{ChainCause, GENERATORS, TERMS};
use faults::{Cause, Fault, LimitName, Name};
use std::alloc::Global;

/// The refusal of a file whose boundary of a boundary is not 0.
pub fn not_complex(
    alloc: Global,
    name: &Name,
    degree: u8,
    generator: u32,
    at: u32,
    value: u16,
) -> Fault
    ensures { (result ≡ Fault.NotComplex name.now degree generator value at)
        ⊎ (result ≡ Fault.OutOfMemory) }
{
    match name.copy(alloc) {
        Ok(name) => Fault::NotComplex {
            name,
            degree,
            generator,
            value,
            at,
        },
        Err(_) => Fault::OutOfMemory,
    }
}

/// The refusal of a text: its place and cause, but too many generators or terms are told as the
/// limit that they pass.
pub fn chain_fault(alloc: Global, name: &Name, place: u64, cause: ChainCause) -> Fault
    ensures { (result ≡ chain_fault name.now place cause) ⊎ (result ≡ Fault.OutOfMemory) }
{
    let cause = match cause {
        ChainCause::BadByte => Cause::BadByte,
        ChainCause::BadNumber => Cause::BadNumber,
        ChainCause::Unclosed => Cause::NotClosed,
        ChainCause::UnknownGenerator => Cause::UnknownGenerator,
        ChainCause::RepeatedGenerator => Cause::RepeatedGenerator,
        ChainCause::TooManyGenerators => {
            return Fault::Limit {
                count: LimitName::Generators,
                number: u64::from(GENERATORS),
            };
        }
        ChainCause::TooManyTerms => {
            return Fault::Limit {
                count: LimitName::Terms,
                number: u64::from(TERMS),
            };
        }
    };
    match name.copy(alloc) {
        Ok(name) => Fault::BadText { name, place, cause },
        Err(_) => Fault::OutOfMemory,
    }
}
