//! What a line of a table is asked, and what it has to answer. Nothing is ensured of an answer, so the tests are
//! proved without what is known of a target.

use lab_sector::{DevNo, Kind, NoMemory, Span};
use lab_target::{Held, Marks, Names, Ref, Target, TargetFault, Verdict};
use lab_text::Words;
use std::alloc::Global;
use std::panic::Expect;
use std::process::Abort;

/// What nothing is held of.
pub(super) const NONE_HELD: Held = Held {
    reads: 0,
    writes: 0,
    flushes: 0,
};

/// One write is held, and nothing else.
pub(super) const ONE_WRITE: Held = Held {
    reads: 0,
    writes: 1,
    flushes: 0,
};

/// Something that is asked of a line, with the answer that is wanted. Moments are in microseconds.
#[derive(Clone, Copy)]
pub(super) enum Question<'a> {
    /// It is loaded at this moment, and answers nothing.
    Start(u64),
    /// What becomes of a piece at a moment; a piece is so many sectors from a first one on.
    Judge(Kind, u64, u64, u64, Verdict),
    /// A piece that passes at once and unchanged at a moment, to the first memory disk's sectors from the last one on.
    Pass(Kind, u64, u64, u64, u64),
    /// A piece that passes unchanged at moment 0: to a disk's sectors from one on, after so many microseconds.
    Hold(Kind, u64, u64, u32, u64, u64),
    /// How many of so many sectors from a place on are taken at once.
    Cut(u64, u64, u64),
    /// Whether a piece of a kind may be held.
    MayHold(Kind, bool),
    /// Where bios of a kind go.
    Reference(Kind, Option<Ref>),
    /// Whether some words are a message to it.
    Takes(&'a str, bool),
    /// A message that it takes, and the reply.
    Message(&'a str, &'a str),
    /// Words that are no message to it; it replies nothing to them.
    NoMessage(&'a str),
    /// Its status at a moment, where so many pieces are held.
    Status(u64, Held, &'a str),
    /// The words that make it.
    Print(&'a str),
}

/// Reads a line of so many sectors from its type on.
pub(super) fn read_line<T: Target, N: Names>(
    alloc: Global,
    names: &N,
    words: &str,
    len: u32,
) -> Result<T, TargetFault> {
    T::read(alloc, Words::new(words.as_bytes()), u64::from(len), names)
}

/// The line of these words and of so many sectors, which has to be one.
pub(super) fn line_of<T: Target, N: Names>(
    rt: &impl Abort,
    alloc: Global,
    names: &N,
    words: &str,
    len: u32,
) -> T {
    read_line(alloc, names, words, len).expect(rt, words)
}

/// The fault of words that make no line of eight sectors.
fn fault_of<T: Target, N: Names>(alloc: Global, names: &N, words: &str) -> Option<TargetFault> {
    read_line::<T, N>(alloc, names, words, 8).err()
}

/// Reads words that make no line of eight sectors, and checks each fault.
pub(super) fn faults<T: Target, N: Names>(
    rt: &impl Abort,
    alloc: Global,
    names: &N,
    cases: &[(&str, TargetFault)],
) {
    for (words, fault) in cases {
        assert!(rt;
            fault_of::<T, N>(alloc, names, words) == Some(*fault),
            "{words}"
        );
    }
}

/// Whether a line is as a fresh one is.
pub(super) fn is_as_fresh<T: Target + PartialEq>(alloc: Global, line: &T) -> bool {
    matches!(line.fresh(alloc), Ok(fresh) if fresh == *line)
}

/// Asks the line of these words and of so many sectors, which has to be one.
pub(super) fn ask_line<T: Target, N: Names>(
    rt: &impl Abort,
    alloc: Global,
    names: &N,
    words: &str,
    len: u32,
    questions: &[Question<'_>],
) {
    let mut line: T = line_of(rt, alloc, names, words, len);
    ask(rt, alloc, &mut line, questions);
}

/// Asks such a line, which has to be as a fresh one is then.
pub(super) fn ask_steady<T: Target + PartialEq, N: Names>(
    rt: &impl Abort,
    alloc: Global,
    names: &N,
    words: &str,
    len: u32,
    questions: &[Question<'_>],
) {
    let mut line: T = line_of(rt, alloc, names, words, len);
    ask(rt, alloc, &mut line, questions);
    assert!(rt; is_as_fresh(alloc, &line));
}

/// Asks a fresh line of the target of this one, which has to be made.
pub(super) fn ask_fresh<T: Target>(
    rt: &impl Abort,
    alloc: Global,
    line: &T,
    questions: &[Question<'_>],
) {
    let mut fresh = line.fresh(alloc).expect(rt, "memory");
    ask(rt, alloc, &mut fresh, questions);
}

/// Asks a line one thing after another, and fails at the first answer that isn't the wanted one. The failure tells
/// which question it was, counted from 0.
pub(super) fn ask<T: Target>(
    rt: &impl Abort,
    alloc: Global,
    line: &mut T,
    questions: &[Question<'_>],
) {
    for (place, question) in questions.iter().enumerate() {
        assert!(rt; answers(alloc, line, *question), "question {place}");
    }
}

/// Whether a line answers as it has to.
fn answers<T: Target>(alloc: Global, line: &mut T, question: Question<'_>) -> bool {
    match question {
        Question::Start(now) => {
            line.start(now);
            true
        }
        Question::Message(words, reply) => replies(alloc, line, words, true, reply),
        Question::NoMessage(words) => replies(alloc, line, words, false, ""),
        Question::Judge(..) | Question::Pass(..) | Question::Hold(..) => judges(line, question),
        _ => tells(alloc, line, question),
    }
}

/// Whether a line judges a piece as it has to.
fn judges<T: Target>(line: &mut T, question: Question<'_>) -> bool {
    let (kind, piece, now, verdict) = match question {
        Question::Judge(kind, first, len, now, verdict) => (
            kind,
            Span { first, len },
            now,
            verdict,
        ),
        Question::Pass(kind, first, len, now, to) => {
            (kind, Span { first, len }, now, pass(0, to, len, 0))
        }
        Question::Hold(kind, first, len, disk, to, hold) => {
            (kind, Span { first, len }, 0, pass(disk, to, len, hold))
        }
        _ => return false,
    };
    judged(line, kind, piece, now) == Some(verdict)
}

/// Whether a line that is only looked at answers as it has to.
fn tells<T: Target>(alloc: Global, line: &T, question: Question<'_>) -> bool {
    match question {
        Question::Cut(place, left, count) => cut(line, place, left) == Some(count),
        Question::MayHold(kind, held) => line.may_hold(kind) == held,
        Question::Reference(kind, reference) => line.reference(kind) == reference,
        Question::Takes(words, taken) => line.takes(Words::new(words.as_bytes())) == taken,
        Question::Status(now, held, text) => is_text(line.status(alloc, now, held), text),
        Question::Print(text) => is_text(line.print(alloc), text),
        _ => false,
    }
}

/// What becomes of a piece; `None` where it can't be one.
fn judged<T: Target>(line: &mut T, kind: Kind, piece: Span, now: u64) -> Option<Verdict> {
    if piece.first > 1000 || piece.len > 1000 {
        return None;
    }
    match kind {
        Kind::Flush if piece.first == 0 && piece.len == 0 => Some(line.judge(kind, piece, now)),
        Kind::Read | Kind::Write | Kind::Trim if piece.len > 0 => Some(line.judge(
            kind, piece, now,
        )),
        _ => None,
    }
}

/// How many sectors are taken at once; `None` where none are asked for.
fn cut<T: Target>(line: &T, place: u64, left: u64) -> Option<u64> {
    if left == 0 || place > 1000 || left > 1000 {
        return None;
    }
    Some(line.cut(place, left))
}

/// Whether a line takes some words or doesn't, and replies so.
fn replies<T: Target>(alloc: Global, line: &mut T, words: &str, taken: bool, reply: &str) -> bool {
    let words = Words::new(words.as_bytes());
    let takes = line.takes(words);
    takes == taken && is_text(line.message(alloc, words), reply)
}

/// Whether a text could be made, and is this one.
pub(super) fn is_text(made: Result<Vec<u8>, NoMemory>, text: &str) -> bool {
    matches!(made, Ok(made) if made.as_slice() == text.as_bytes())
}

/// An unchanged pass to these sectors of a memory disk, after so many microseconds.
pub(super) fn pass(disk: u32, first: u64, len: u64, hold: u64) -> Verdict {
    Verdict::Pass(DevNo::Ram(disk), Span { first, len }, hold, Marks::NONE)
}
