//! The witness file and its header.
ghost use Rattle.std.specs.Prelude.{◌≡◌, ◌⊎◌, IfOk, IfErr, Err};
ghost use Rattle.loading.specs.Loads.{Loads};
ghost use Rattle.witness_types.specs.Headers.{IsHeader};
ghost use Rattle.replay_tool.specs.Inputs.{read_witness, header_of, headed_of, IsHeadOf, IsWitnessIn};

use crate::told::law_fails;
use faults::{Fault, Law, Name};
use loading::load_bytes;
use outside::Files;
use std::alloc::Global;
use witness_texts::{ClaimKind, Header, header};
use witness_types::WitnessFault;

// The most bytes of a witness file.
const WITNESS_BYTES: u64 = 1_073_741_824;

/// The bytes of a witness file, and the modulus in its header, where it claims something of this
/// kind.
pub(crate) fn load_witness<F: Files>(
    alloc: Global,
    files: &mut F,
    name: &Name,
    kind: ClaimKind,
) -> Result<(Vec<u8>, u16), Fault>
    ensures loads { Loads read_witness (IsWitnessIn name.now kind)
        (F.seen files.old) (F.seen files.new) (headed_of result) }
    ensures header { IfOk result (λ made. IsHeader made.0.items (header_of kind made.1)) }
{
    let bytes = load_bytes(alloc, files, name, WITNESS_BYTES)?;
    let modulus = headed(alloc, name, kind, &bytes)?;
    Ok((bytes, modulus))
}

// The modulus in the header of a witness file.
fn headed(alloc: Global, name: &Name, kind: ClaimKind, bytes: &[u8]) -> Result<u16, Fault>
    ensures ok { IfOk result (λ p. IsHeader bytes.now (header_of kind p)) }
    ensures err { IfErr result (λ fault.
        IsHeadOf name.now kind bytes.now (Err fault) ⊎ (fault ≡ Fault.OutOfMemory)) }
{
    match header(bytes) {
        Ok(head) => fitting(alloc, name, kind, bytes, head),
        Err(WitnessFault::At { line, law: _ }) => Err(law_fails(alloc, name, line, Law::Header)),
        Err(WitnessFault::NoMemory) => Err(Fault::OutOfMemory),
    }
}

// The modulus in a header, where its claim is of this kind.
fn fitting(
    alloc: Global,
    name: &Name,
    kind: ClaimKind,
    _bytes: &[u8],
    head: Header,
) -> Result<u16, Fault>
    requires { IsHeader _bytes.now head }
    ensures ok { IfOk result (λ p. IsHeader _bytes.now (header_of kind p)) }
    ensures err { IfErr result (λ fault.
        IsHeadOf name.now kind _bytes.now (Err fault) ⊎ (fault ≡ Fault.OutOfMemory)) }
{
    if head.kind == kind {
        Ok(head.modulus)
    } else {
        Err(law_fails(alloc, name, 3, Law::Header))
    }
}
