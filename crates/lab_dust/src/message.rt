ghost use Rattle.std.specs.Prelude.{◌≡◌, Some, None, if◌then◌else◌, nat_lt, option_and_then};
ghost use Rattle.std.specs.Result.{result_ok};
ghost use Rattle.std.specs.Str.{str_eq_ignore_ascii_case};
ghost use Rattle.lab_text.specs.Words.{words_left};
ghost use Rattle.lab_dust.specs.Dust.{block_message, lone_message, message_of};
ghost use Rattle.lab_text.specs.Numbers.{number_of};

use lab_text::{Words, number};

/// What a dust line is told or asked by a message (dm-dust).
#[derive(Clone, Copy, Debug, PartialEq, Eq)]
pub(crate) enum Message {
    /// `addbadblock`: the block is listed.
    AddBlock(u64),
    /// `removebadblock`: the block leaves the list.
    RemoveBlock(u64),
    /// `queryblock`: whether the block is listed.
    QueryBlock(u64),
    /// `countbadblocks`: how many blocks are listed.
    CountBlocks,
    /// `listbadblocks`: which blocks are listed.
    ListBlocks,
    /// `clearbadblocks`: all blocks leave the list.
    ClearBlocks,
    /// `enable`: reads of listed blocks fail.
    Enable,
    /// `disable`: the list is passed by.
    Disable,
    /// `quiet`: the flag toggles.
    Quiet,
}

impl Message {
    /// The message that words are to a line of `count` blocks, if they are one.
    pub(crate) fn of(mut words: Words<'_>, count: u64) -> Option<Message>
        ensures { result ≡ message_of count (words_left words.entry) }
    {
        match (words.next(), words.next(), words.next()) {
            (Some(word), None, None) => Message::alone(word),
            (Some(word), Some(number), None) => Message::about(word, block_below(number, count)?),
            _ => None,
        }
    }

    /// The message of a word alone.
    fn alone(word: &[u8]) -> Option<Message>
        ensures { result ≡ lone_message word.now }
    {
        match word {
            _ if same_letters(word, b"countbadblocks") => Some(Message::CountBlocks),
            _ if same_letters(word, b"listbadblocks") => Some(Message::ListBlocks),
            _ if same_letters(word, b"clearbadblocks") => Some(Message::ClearBlocks),
            _ if same_letters(word, b"enable") => Some(Message::Enable),
            _ if same_letters(word, b"disable") => Some(Message::Disable),
            _ if same_letters(word, b"quiet") => Some(Message::Quiet),
            _ => None,
        }
    }

    /// The message of a word and a block.
    fn about(word: &[u8], block: u64) -> Option<Message>
        ensures { result ≡ block_message word.now block }
    {
        match word {
            _ if same_letters(word, b"addbadblock") => Some(Message::AddBlock(block)),
            _ if same_letters(word, b"removebadblock") => Some(Message::RemoveBlock(block)),
            _ if same_letters(word, b"queryblock") => Some(Message::QueryBlock(block)),
            _ => None,
        }
    }
}

/// The block of a number, if a line of `count` blocks has it.
fn block_below(word: &[u8], count: u64) -> Option<u64>
    ensures { result ≡ option_and_then (λ block. if nat_lt block count then Some block else None)
        (result_ok (number_of word.now 18446744073709551615)) }
{
    match number(word, u64::MAX) {
        Ok(block) if block < count => Some(block),
        _ => None,
    }
}

/// Whether two words are the same in letters of either case.
fn same_letters(word: &[u8], name: &[u8]) -> bool
    ensures { result ≡ str_eq_ignore_ascii_case word.now name.now }
{
    word.eq_ignore_ascii_case(name)
}
