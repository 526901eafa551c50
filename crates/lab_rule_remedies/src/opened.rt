use lab_outline::Spotted;
use lab_text::{Lines, is_heading};
use std::str::from_utf8;

/// The only file that is open before a log's line; nothing where none is, or the log has opened several.
pub fn only_open(bytes: &[u8], number: u64) -> Option<&str> {
    let mut at = 0u64;
    let mut found: Option<Spotted<'_>> = None;
    let mut is_several = false;
    for bare in Lines::new(bytes) {
        at = at.saturating_add(1);
        if number <= at {
            break;
        }
        let line = from_utf8(bare).unwrap_or("");
        let own = Spotted { number: at, line };
        if is_heading(bare) {
            found = None;
            is_several = false;
        } else if own.word(1) == "open" {
            is_several = is_several || found.is_some_and(|it| it.word(0) != own.word(0));
            found = Some(own);
        } else if own.word(1) == "close" {
            found = found.filter(|it| it.word(0) != own.word(0));
        }
    }
    found.filter(|_| !is_several).map(|it| it.word(0))
}
