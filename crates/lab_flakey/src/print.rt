ghost use Rattle.std.specs.Prelude.{◌≡◌, ◌++◌, [], ◌∷◌, ◌≤◌, OnOk, decimal, length};
ghost use Rattle.lab_flakey.specs.Features.{direction_word, feature_words};
ghost use Rattle.lab_flakey.specs.Printed.{chance_words, corruption_words, flag_words};
ghost use Rattle.lab_text.specs.Words.{spaced};
ghost use Rattle.lab_flakey.specs.Flakey.{counted};

use crate::feature::{Corruption, Direction, Features};
use lab_sector::NoMemory;
use lab_text::push_number;

/// Appends the number of the features' words and the features, if there are any, a space before
/// each.
pub(crate) fn push_features(out: &mut Vec<u8>, features: &Features) -> Result<(), NoMemory>
    ensures { OnOk result (out.new.items
        ≡ out.old.items ++ spaced (counted (feature_words features.now))) }
{
    let count = word_count(features);
    if count == 0 {
        return Ok(());
    }
    push_count(out, count)?;
    push_each(out, features)?;
    Ok(())
}

/// How many words the features have.
#[tactic(auto, using(crate::specs::Printed::feature_words_are))]
fn word_count(features: &Features) -> u32
    ensures { result ≡ length (feature_words features.now) }
{
    u32::from(features.error_reads)
        + u32::from(features.drop_writes)
        + u32::from(features.error_writes)
        + corruption_count(features.corrupt)
        + chance_count(features.random_read)
        + chance_count(features.random_write)
}

/// How many words a fixed corruption has.
fn corruption_count(corrupt: Option<Corruption>) -> u32
    ensures exact { result ≡ length (corruption_words corrupt) }
    ensures few { result ≤ 5 }
{
    match corrupt {
        None => 0,
        Some(_) => 5,
    }
}

/// How many words a random feature has.
fn chance_count(chance: Option<u32>) -> u32
    ensures exact { result ≡ length (chance_words [] chance) }
    ensures few { result ≤ 2 }
{
    match chance {
        None => 0,
        Some(_) => 2,
    }
}

/// Appends the features' words in their one order, a space before each.
fn push_each(out: &mut Vec<u8>, features: &Features) -> Result<(), NoMemory>
    ensures { OnOk result (out.new.items ≡ out.old.items ++ spaced (feature_words features.now)) }
{
    push_flag(out, features.error_reads, b"error_reads")?;
    push_flag(out, features.drop_writes, b"drop_writes")?;
    push_flag(out, features.error_writes, b"error_writes")?;
    push_corruption(out, features.corrupt)?;
    push_chance(out, b"random_read_corrupt", features.random_read)?;
    push_chance(out, b"random_write_corrupt", features.random_write)?;
    Ok(())
}

/// Appends the word of a feature without arguments, if it is given.
fn push_flag(out: &mut Vec<u8>, given: bool, word: &[u8]) -> Result<(), NoMemory>
    ensures { OnOk result (out.new.items ≡ out.old.items ++ spaced (flag_words given word.now)) }
{
    if given { push_word(out, word) } else { Ok(()) }
}

/// Appends a fixed corruption's name and its four values, if there is one.
fn push_corruption(out: &mut Vec<u8>, corrupt: Option<Corruption>) -> Result<(), NoMemory>
    ensures { OnOk result (out.new.items ≡ out.old.items ++ spaced (corruption_words corrupt)) }
{
    let Some(corruption) = corrupt else {
        return Ok(());
    };
    push_word(out, b"corrupt_bio_byte")?;
    push_count(out, corruption.nth)?;
    push_direction(out, corruption.direction)?;
    push_count(out, u32::from(corruption.value))?;
    push_count(out, corruption.flags)?;
    Ok(())
}

/// Appends the word of a direction.
fn push_direction(out: &mut Vec<u8>, direction: Direction) -> Result<(), NoMemory>
    ensures { OnOk result (out.new.items ≡ out.old.items ++ 32 ∷ direction_word direction) }
{
    match direction {
        Direction::Reads => push_word(out, b"r"),
        Direction::Writes => push_word(out, b"w"),
    }
}

/// Appends a random feature's name and its chance, if it is given.
fn push_chance(out: &mut Vec<u8>, name: &[u8], chance: Option<u32>) -> Result<(), NoMemory>
    ensures { OnOk result (out.new.items ≡ out.old.items ++ spaced (chance_words name.now chance)) }
{
    let Some(chance) = chance else {
        return Ok(());
    };
    push_word(out, name)?;
    push_count(out, chance)
}

/// Appends a space and a word.
fn push_word(out: &mut Vec<u8>, word: &[u8]) -> Result<(), NoMemory>
    ensures { OnOk result (out.new.items ≡ out.old.items ++ 32 ∷ word.now) }
{
    out.push(b' ')?;
    out.extend_from_slice(word)?;
    Ok(())
}

/// Appends a space and a number.
pub(crate) fn push_count(out: &mut Vec<u8>, n: u32) -> Result<(), NoMemory>
    ensures { OnOk result (out.new.items ≡ out.old.items ++ 32 ∷ decimal n) }
{
    out.push(b' ')?;
    push_number(out, u64::from(n))
}
