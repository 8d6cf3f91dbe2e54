//! Laws over the definitions alone, each the contract of a function that does nothing.
ghost use Rattle.std.specs.Prelude.{ℕ, List};
ghost use Rattle.loading.specs.Jobs.{IsJudgedOnce};
ghost use Rattle.all_tools.specs.Lines.{asked};

/// Words and files are judged in exactly one way: there is one first refusal, or one input.
#[tactic(auto, using(crate::specs::Lines::line_once))]
pub fn judgements_are_one()
    ensures { (words : List (List ℕ)) → IsJudgedOnce (asked words).job }
{}
