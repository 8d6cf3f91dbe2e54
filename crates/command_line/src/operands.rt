//! Operands that are no names of files.
ghost use Rattle.std.specs.Prelude.{◌≡◌, ◌≤◌, ◌+◌, ◌-◌, ◌<◌, ◌^◌, decimal, IfSome};
ghost use Rattle.std.specs.List.{range_with_len};
ghost use Rattle.command_line.specs.Operands.{named, hole_number, holes_named};
ghost use Rattle.command_line.specs.Forms.{are_operands};

use crate::form::ToolName;
use faults::Name;
use itoa::Buffer;

/// Whether the operands are words that the tool takes.
pub fn are_operands(tool: ToolName, operands: &[Name]) -> bool
    ensures { result ≡ are_operands tool operands.now }
{
    match tool {
        ToolName::Gen => holes_named(operands).is_some(),
        ToolName::Replay => operands.len() <= 3 || 6 <= operands.len(),
        _ => true,
    }
}

/// The number of holes that operands name: they are the word `holes` and a number from 1 to 527.
pub fn holes_named(operands: &[Name]) -> Option<u16>
    ensures value { result ≡ holes_named operands.now }
    ensures within { IfSome result (λ n. (1 ≤ n) × (n ≤ 527)) }
{
    match operands {
        [word, number] if word.as_str() == "holes" => hole_number(number.as_str()),
        _ => None,
    }
}

// The number from 1 to 527 that is written so.
#[tactic(auto, unfolding(crate::specs::Operands::hole_number))]
fn hole_number(word: &str) -> Option<u16>
    ensures value { result ≡ hole_number word.now }
    ensures within { IfSome result (λ n. (1 ≤ n) × (n ≤ 527)) }
{
    number_from(1, 527, word)
}

// The first of so many numbers, from the least on, that is written so in decimal.
fn number_from(least: u16, count: u16, word: &str) -> Option<u16>
    requires { least + count < 2 ^ 16 }
    ensures value { result ≡ named decimal (range_with_len least count) word.now }
    ensures within { IfSome result (λ n. (least ≤ n) × (n < least + count)) }
{
    for number in least..least + count {
        if word == Buffer::new().format(number) {
            return Some(number);
        }
    }
    None
}
