ghost use Rattle.std.specs.Prelude.{◌≡◌, ◌++◌, IfOk, OnOk};
ghost use Rattle.lab_text.specs.Words.{spaced, words_left, words_of};
ghost use Rattle.std.specs.List.{join_with_byte};

use lab_sector::NoMemory;
use lab_text::Words;
use std::alloc::Global;

/// The words of the text, with one space between.
#[tactic(auto, using(crate::proofs::Rulesets::joined))]
pub(crate) fn joined(alloc: Global, text: &[u8]) -> Result<Vec<u8>, NoMemory>
    ensures { IfOk result (λ bytes. bytes.items ≡ join_with_byte 32 (words_of text.now)) }
{
    let mut words = Words::new(text);
    let Some(first) = words.next() else {
        return Ok(Vec::new(alloc));
    };
    let mut bytes = first.to_vec(alloc)?;
    push_spaced(&mut bytes, words)?;
    Ok(bytes)
}

/// Adds the words, with a space before each.
fn push_spaced(bytes: &mut Vec<u8>, words: Words<'_>) -> Result<(), NoMemory>
    ensures { OnOk result (bytes.new.items ≡ bytes.old.items ++ spaced (words_left words.entry)) }
{
    for word in words {
        bytes.push(b' ')?;
        bytes.extend_from_slice(word)?;
    }
    Ok(())
}
