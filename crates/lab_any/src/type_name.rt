ghost use Rattle.std.specs.Prelude.{◌≡◌};
ghost use Rattle.lab_text.specs.Words.{words_left};
ghost use Rattle.lab_any.specs.Names.{type_named, type_of};

use lab_text::Words;

/// A type of target.
#[derive(Clone, Copy, Debug, PartialEq, Eq)]
pub(crate) enum TypeName {
    Linear,
    Zero,
    Error,
    Flakey,
    Dust,
    Delay,
}

/// The type of a line's words from its type on, if its first word names one.
pub(crate) fn type_of(mut words: Words<'_>) -> Option<TypeName>
    ensures { result ≡ type_of (words_left words.entry) }
{
    type_named(words.next()?)
}

/// The type that a word names.
fn type_named(word: &[u8]) -> Option<TypeName>
    ensures { result ≡ type_named word.now }
{
    if word == b"linear".as_slice() {
        Some(TypeName::Linear)
    } else if word == b"zero".as_slice() {
        Some(TypeName::Zero)
    } else if word == b"error".as_slice() {
        Some(TypeName::Error)
    } else if word == b"flakey".as_slice() {
        Some(TypeName::Flakey)
    } else if word == b"dust".as_slice() {
        Some(TypeName::Dust)
    } else if word == b"delay".as_slice() {
        Some(TypeName::Delay)
    } else {
        None
    }
}
