//! The modulus of the coefficients as a word.
ghost use Rattle.std.specs.Prelude.{◌≡◌, ◌==◌, decimal, IfSome, IsTrue};
ghost use Rattle.std.specs.List.{list_any};
ghost use Rattle.field_mod.specs.Moduli.{moduli, IsModulus};
ghost use Rattle.command_line.specs.Forms.{named};

use field_mod::MODULI;
use itoa::Buffer;

/// The modulus that is written so: one of the table, in decimal without sign and leading zero.
pub fn modulus_named(word: &str) -> Option<u16>
    ensures value { result ≡ named decimal moduli word.now }
    ensures table { IfSome result IsModulus }
{
    number_named(&MODULI, word)
}

// The first number that is written so in decimal.
fn number_named(numbers: &[u16], word: &str) -> Option<u16>
    ensures value { result ≡ named decimal numbers.now word.now }
    ensures member { IfSome result (λ n. IsTrue (list_any (λ q. q == n) numbers.now)) }
{
    for number in numbers {
        if word == Buffer::new().format(*number) {
            return Some(*number);
        }
    }
    None
}
