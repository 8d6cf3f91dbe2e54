//! Witnesses of version 1 are tested.
ghost use Rattle.std.specs.Prelude.{◌≡◌, IfOk, IfErr};
ghost use Rattle.witness_laws.specs.Tables.{tables_format};
ghost use Rattle.witness_types.specs.Inputs.{given_of, IsWitnessInput, IsWithinTables};
ghost use Rattle.witness_types.specs.Answers.{IsHeaded, IsFault, ShowsTables};

use field_mod::Field;
use map_reading::read_witness;
use std::alloc::Global;
use witness_testing::test_laws;
use witness_types::{Claim, Input, WitnessFault};

/// What a witness of version 1 claims, where it meets the laws; then its cycles are bases, and for
/// a map the values are acyclic, a carried map exists, and the matrices are those of all carried
/// maps. Else the first line and law that fail.
pub fn replay<const P: u16>(
    alloc: Global,
    field: Field<P>,
    bytes: &[u8],
    input: &Input,
) -> Result<Claim<P>, WitnessFault>
    requires header { IsHeaded 1 P input.now bytes.now }
    requires input { IsWitnessInput input.now }
    requires limits { IsWithinTables (given_of input.now) }
    ensures ok { IfOk result (ShowsTables input.now bytes.now) }
    ensures err { IfErr result (IsFault (tables_format P (given_of input.now)) bytes.now) }
{
    let parts = read_witness(alloc, field, bytes, input)?;
    let claim = test_laws(alloc, field, input, parts)?;
    Ok(claim)
}
