ghost use Rattle.std.specs.Prelude.{◌≡◌, [], ◌∷◌};
ghost use Rattle.lab_text.specs.Words.{words_of};
ghost use Rattle.lab_history.specs.History.{event_of, bare_event, numbered_event};

use lab_model::Event;
use lab_text::{Words, number_to};

/// The greatest number of a log.
const MAX_LOG: u64 = 4_294_967_295;

/// The event that the line names, or `None` where it names none.
pub(crate) fn read_event(line: &[u8]) -> Option<Event>
    ensures { result ≡ event_of (words_of line.now) }
{
    let mut words = Words::new(line);
    let word = words.next()?;
    match (words.next(), words.next()) {
        (None, _) => read_bare_event(word),
        (Some(number), None) => read_numbered_event(word, number),
        _ => None,
    }
}

/// The event of this name that has no number.
fn read_bare_event(word: &[u8]) -> Option<Event>
    ensures { result ≡ bare_event word.now }
{
    if word == b"control".as_slice() {
        Some(Event::Control)
    } else if word == b"clock".as_slice() {
        Some(Event::Clock)
    } else {
        None
    }
}

/// The event of this name and number.
fn read_numbered_event(word: &[u8], number: &[u8]) -> Option<Event>
    ensures { result ≡ event_of (word.now ∷ number.now ∷ []) }
{
    numbered_event(word, number_to(number, u64::MAX)?)
}

/// The event of this name with this number.
fn numbered_event(word: &[u8], number: u64) -> Option<Event>
    ensures { result ≡ numbered_event word.now number }
{
    if word == b"line".as_slice() && number <= MAX_LOG {
        Some(Event::Line(number as u32))
    } else if word == b"map".as_slice() {
        Some(Event::Map(number))
    } else if word == b"serve".as_slice() {
        Some(Event::Serve(number))
    } else if word == b"release".as_slice() {
        Some(Event::Release(number))
    } else if word == b"finish".as_slice() {
        Some(Event::Finish(number))
    } else {
        None
    }
}
