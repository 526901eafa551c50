ghost use Rattle.std.specs.Prelude.{◌≡◌, ◌∷◌, [], Err, OnOk, drop, if◌then◌else◌};
ghost use Rattle.std.specs.Option.{ok_or};
ghost use Rattle.lab_text.specs.Numbers.{number_of};
ghost use Rattle.lab_text.specs.Words.{words_left};
ghost use Rattle.lab_target.specs.declared.fault.TargetFault.TheVariants.{Conflict, Value};
ghost use Rattle.lab_flakey.specs.Features.{chance_first, corruption_first, direction_of, features_of, greatest_count, is_given, name_of, no_features, width, with_feature};
ghost use Rattle.lab_flakey.specs.Names.{later_name_of};

use crate::draw::CERTAIN;
use crate::feature::{Corruption, Direction, FeatureName, Features};
use lab_target::TargetFault;
use lab_text::{NumberFault, Words, number};

/// The greatest value that a byte is corrupted to.
pub const MAX_VALUE: u64 = 255;

/// The features that words say from the left.
pub(crate) fn read_features(mut words: Words<'_>) -> Result<Features, TargetFault>
    ensures { result ≡ features_of 0 no_features (words_left words.entry) }
{
    let mut features = Features::NONE;
    while let Some(word) = words.next() {
        let name = feature_name(word).ok_or(TargetFault::Feature)?;
        features = with_another(features, name, &mut words)?;
    }
    Ok(features)
}

/// The feature that a word names.
fn feature_name(word: &[u8]) -> Option<FeatureName>
    ensures { result ≡ name_of word.now }
{
    match word {
        _ if word == b"error_reads".as_slice() => Some(FeatureName::ErrorReads),
        _ if word == b"drop_writes".as_slice() => Some(FeatureName::DropWrites),
        _ if word == b"error_writes".as_slice() => Some(FeatureName::ErrorWrites),
        _ => later_name(word),
    }
}

/// The feature that a word names, where it is none without arguments.
fn later_name(word: &[u8]) -> Option<FeatureName>
    ensures { result ≡ later_name_of word.now }
{
    match word {
        _ if word == b"corrupt_bio_byte".as_slice() => Some(FeatureName::CorruptByte),
        _ if word == b"random_read_corrupt".as_slice() => Some(FeatureName::RandomRead),
        _ if word == b"random_write_corrupt".as_slice() => Some(FeatureName::RandomWrite),
        _ => None,
    }
}

/// The features with one that isn't given yet, whose arguments are the next words.
fn with_another(
    features: Features,
    name: FeatureName,
    words: &mut Words<'_>,
) -> Result<Features, TargetFault>
    ensures said { result ≡ (if is_given features name then Err Conflict
        else with_feature features name (words_left words.old)) }
    ensures rest { OnOk result (words_left words.new ≡ drop (width name) (words_left words.old)) }
{
    if is_given(&features, name) {
        return Err(TargetFault::Conflict);
    }
    with_feature(features, name, words)
}

/// Whether a feature is given.
fn is_given(features: &Features, name: FeatureName) -> bool
    ensures { result ≡ is_given features.now name }
{
    match name {
        FeatureName::ErrorReads => features.error_reads,
        FeatureName::DropWrites => features.drop_writes,
        FeatureName::ErrorWrites => features.error_writes,
        FeatureName::CorruptByte => features.corrupt.is_some(),
        FeatureName::RandomRead => features.random_read.is_some(),
        FeatureName::RandomWrite => features.random_write.is_some(),
    }
}

/// The features with one more, whose arguments are the next words.
fn with_feature(
    mut features: Features,
    name: FeatureName,
    words: &mut Words<'_>,
) -> Result<Features, TargetFault>
    ensures said { result ≡ with_feature features name (words_left words.old) }
    ensures rest { OnOk result (words_left words.new ≡ drop (width name) (words_left words.old)) }
{
    match name {
        FeatureName::ErrorReads => features.error_reads = true,
        FeatureName::DropWrites => features.drop_writes = true,
        FeatureName::ErrorWrites => features.error_writes = true,
        FeatureName::CorruptByte => features.corrupt = Some(corruption(words)?),
        FeatureName::RandomRead => features.random_read = Some(chance(words)?),
        FeatureName::RandomWrite => features.random_write = Some(chance(words)?),
    }
    Ok(features)
}

/// The corruption that the next four words say.
fn corruption(words: &mut Words<'_>) -> Result<Corruption, TargetFault>
    ensures said { result ≡ corruption_first (words_left words.old) }
    ensures rest { OnOk result (words_left words.new ≡ drop 4 (words_left words.old)) }
{
    let (Some(nth), Some(direction), Some(value), Some(flags)) = (
        words.next(),
        words.next(),
        words.next(),
        words.next(),
    ) else {
        return Err(TargetFault::Args);
    };
    corruption_said(nth, direction, value, flags).ok_or(TargetFault::Value)
}

/// The corruption that four words say.
#[tactic(auto, unfolding(lab_text::specs::Numbers::number_of))]
fn corruption_said(nth: &[u8], direction: &[u8], value: &[u8], flags: &[u8]) -> Option<Corruption>
    ensures { ok_or result Value
        ≡ corruption_first (nth.now ∷ direction.now ∷ value.now ∷ flags.now ∷ []) }
{
    let (Ok(nth), Some(direction), Ok(value), Ok(flags)) = (
        count(nth),
        direction_of(direction),
        byte(value),
        count(flags),
    ) else {
        return None;
    };
    if nth == 0 {
        return None;
    }
    Some(Corruption {
        nth,
        direction,
        value,
        flags,
    })
}

/// The direction that a word names.
fn direction_of(word: &[u8]) -> Option<Direction>
    ensures { result ≡ direction_of word.now }
{
    match word {
        _ if word == b"r".as_slice() => Some(Direction::Reads),
        _ if word == b"w".as_slice() => Some(Direction::Writes),
        _ => None,
    }
}

/// The chance that the next word says.
#[tactic(auto, unfolding(lab_text::specs::Numbers::number_of))]
fn chance(words: &mut Words<'_>) -> Result<u32, TargetFault>
    ensures said { result ≡ chance_first (words_left words.old) }
    ensures rest { OnOk result (words_left words.new ≡ drop 1 (words_left words.old)) }
{
    let word = words.next().ok_or(TargetFault::Args)?;
    match number(word, u64::from(CERTAIN)) {
        Ok(chance) => Ok(chance as u32),
        Err(_) => Err(TargetFault::Value),
    }
}

/// A number of 32 bits.
#[tactic(auto, unfolding(lab_text::specs::Numbers::number_of))]
pub(crate) fn count(word: &[u8]) -> Result<u32, NumberFault>
    ensures { result ≡ number_of word.now greatest_count }
{
    Ok(number(word, 4_294_967_295)? as u32)
}

/// A number of 8 bits.
#[tactic(auto, unfolding(lab_text::specs::Numbers::number_of))]
fn byte(word: &[u8]) -> Result<u8, NumberFault>
    ensures { result ≡ number_of word.now 255 }
{
    Ok(number(word, MAX_VALUE)? as u8)
}
