//! Code words, decoded once.

ghost use Rattle.std.specs.Prelude.{IfOk};
ghost use Rattle.code_layout.specs.Decoded.{AreDecodedAs};

use ppc_isa::{Instr, decode};
use std::alloc::Global;
use word_kit::NoMemory;

/// The words, each decoded.
///
/// # Errors
/// `NoMemory` where there is no memory for them.
pub fn decoded_words(alloc: Global, words: &[u32]) -> Result<Vec<Option<Instr>>, NoMemory>
    ensures { IfOk result (λ v. AreDecodedAs words.now v.items) }
{
    let mut decoded = Vec::with_capacity(alloc, words.len())?;
    for word in words {
        decoded.push(decode(*word))?;
    }
    Ok(decoded)
}
