ghost use Rattle.std.specs.Prelude.{◌≡◌, MatchOption, Some, None};
ghost use Rattle.lab_text.specs.Words.{words_left};
ghost use Rattle.lab_target.specs.Types.{after_type};

use lab_text::Words;

/// The words after a type's own word, if the first word is the type's.
pub fn after_type<'a>(mut words: Words<'a>, name: &[u8]) -> Option<Words<'a>>
    ensures { MatchOption result
        (after_type name.now (words_left words.entry) ≡ None)
        (λ rest. after_type name.now (words_left words.entry) ≡ Some (words_left rest)) }
{
    match words.next() {
        Some(word) if word == name => Some(words),
        _ => None,
    }
}
