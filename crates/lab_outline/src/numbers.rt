use lab_text::number_to;

/// The number of a word of decimal digits.
pub fn plain(word: &str) -> Option<u64> {
    number_to(word.as_bytes(), u64::MAX)
}
