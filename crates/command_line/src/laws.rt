//! Laws over the definitions alone, each the contract of a function that does nothing.
ghost use Rattle.command_line.specs.Laws.{OptionsHaveNoOrder, ValuesAreSaidInTwoWays, WordsBehindDashesAreOperands};

/// Options in any order, among themselves and among operands, say the same.
pub fn options_have_no_order()
    ensures { OptionsHaveNoOrder }
{}

/// `--name=value` and `--name value` say the same.
pub fn values_are_said_in_two_ways()
    ensures { ValuesAreSaidInTwoWays }
{}

/// Behind `--` each word is an operand, with a dash in front or without, and an empty one is
/// refused.
#[tactic(auto, using(crate::proofs::Wholes::behind_dashes))]
pub fn words_behind_dashes_are_operands()
    ensures { WordsBehindDashesAreOperands }
{}
