//! Chains as they are printed.
ghost use Rattle.std.specs.Prelude.{◌≡◌, ◌++◌, OnOk};
ghost use Rattle.faults.specs.ChainText.{term_text, chain_text};

use crate::generator::Generator;
use crate::terms::Terms;
use itoa::Buffer;
use std::alloc::AllocError as NoMemory;

/// Adds a chain: its terms in order, each but the first behind a plus.
/// One without terms has no text.
pub fn put_chain<G: Generator>(to: &mut Vec<u8>, chain: &Terms<G>) -> Result<(), NoMemory>
    ensures { OnOk result (to.new.items ≡ to.old.items ++ chain_text G.text chain.now) }
{
    let [first, rest @ ..] = chain.as_slice() else {
        return Ok(());
    };
    put_term(to, first)?;
    for term in rest {
        to.extend_from_slice(b" + ")?;
        put_term(to, term)?;
    }
    Ok(())
}

// Adds a term.
fn put_term<G: Generator>(to: &mut Vec<u8>, term: &(G, u16)) -> Result<(), NoMemory>
    ensures { OnOk result (to.new.items ≡ to.old.items ++ term_text G.text term.now) }
{
    let mut buffer = Buffer::new();
    let (generator, coefficient) = term;
    to.extend_from_slice(buffer.format(*coefficient).as_bytes())?;
    to.extend_from_slice(b" * ")?;
    generator.put(to)
}
