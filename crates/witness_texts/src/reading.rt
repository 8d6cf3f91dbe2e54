//! The header of a witness file is read.
ghost use Rattle.std.specs.Prelude.{◌≡◌, ◌++◌, IfOk, IfErr};
ghost use Rattle.field_mod.specs.Moduli.{moduli};
ghost use Rattle.witness_laws.specs.declared.law.Law.TheVariants as laws;
ghost use Rattle.witness_laws.specs.declared.law.WitnessFault.TheVariants.{At};
ghost use Rattle.witness_types.specs.Headers.{version_line, kind_line, IsHeader, IsHeaderFault};
ghost use Rattle.witness_texts.specs.Fronts.{BeginsOtherwise, BeginsWith, NamesNone, IsNamed};
ghost use Rattle.witness_texts.specs.Fronts.{ClaimsNothing};

use crate::fronts::{after, after_one_of};
use field_mod::MODULI;
use witness_types::{ClaimKind, Header, Law, WitnessFault};

/// What the first three lines say; or the law `Header` at the first of them that is not one that
/// may stand there. It takes no memory.
#[tactic(auto, using(crate::proofs::Heading::headings))]
pub fn header(bytes: &[u8]) -> Result<Header, WitnessFault>
    ensures ok { IfOk result (IsHeader bytes.now) }
    ensures err { IfErr result (IsHeaderFault bytes.now) }
{
    let behind_version = after_version(bytes)?;
    let (modulus, behind_modulus) = after_modulus_line(behind_version)?;
    let kind = kind_in_front(behind_modulus)?;
    Ok(Header {
        version: 1,
        modulus,
        kind,
    })
}

// A line of the header that may not stand there.
fn fault_at(line: u64) -> WitnessFault
    ensures { result ≡ At line laws.Header }
{
    WitnessFault::At {
        line,
        law: Law::Header,
    }
}

// What stands behind the line of the version.
fn after_version(bytes: &[u8]) -> Result<&[u8], WitnessFault>
    ensures ok { IfOk result (λ rest. bytes.now ≡ version_line 1 ++ rest.now) }
    ensures line { IfErr result (λ fault. fault ≡ At 1 laws.Header) }
    ensures err { IfErr result (λ _. BeginsOtherwise bytes.now (version_line 1)) }
{
    match after(bytes, b"chomp witness 1\n") {
        Some(rest) => Ok(rest),
        None => Err(fault_at(1)),
    }
}

// The modulus that the line in front names, and what stands behind the line.
fn after_modulus_line(bytes: &[u8]) -> Result<(u16, &[u8]), WitnessFault>
    ensures ok { IfOk result (λ named. IsNamed bytes.now moduli named.0 named.1.now) }
    ensures line { IfErr result (λ fault. fault ≡ At 2 laws.Header) }
    ensures err { IfErr result (λ _. NamesNone bytes.now moduli) }
{
    match after_one_of(bytes, &MODULI) {
        Some(named) => Ok(named),
        None => Err(fault_at(2)),
    }
}

// The kind of the claim that the line in front names.
fn kind_in_front(bytes: &[u8]) -> Result<ClaimKind, WitnessFault>
    ensures ok { IfOk result (λ kind. BeginsWith bytes.now (kind_line kind)) }
    ensures line { IfErr result (λ fault. fault ≡ At 3 laws.Header) }
    ensures err { IfErr result (λ _. ClaimsNothing bytes.now) }
{
    if let Some(_rest) = after(bytes, b"claim pair\n") {
        return Ok(ClaimKind::Pair);
    }
    match after(bytes, b"claim map\n") {
        Some(_) => Ok(ClaimKind::Map),
        None => Err(fault_at(3)),
    }
}
