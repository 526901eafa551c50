ghost use Rattle.std.specs.Prelude.{◌≡◌, ◌++◌, OnOk, option_copied};
ghost use Rattle.lab_trace.specs.Micros.{micro_word, order_device, order_word, with_micro};

use crate::row::TraceRow;
use crate::words::push_word;
use lab_model::{Micro, Order};
use lab_sector::{DevNo, NoMemory};

/// The row with the script's line that a micro-command comes from, and the device that it names.
pub fn with_micro(row: TraceRow, micro: Option<&Micro>) -> TraceRow
    ensures row { result ≡ with_micro row (option_copied micro.entry) }
{
    match micro {
        Some(micro) => TraceRow {
            line: Some(micro.line),
            device: order_device(&micro.order),
            ..row
        },
        None => row,
    }
}

/// The mapped device that a micro-command names, if it names one.
fn order_device(order: &Order) -> Option<DevNo>
    ensures { result ≡ order_device order.now }
{
    match order {
        Order::Create(device, _)
        | Order::Load(device, _)
        | Order::Clear(device)
        | Order::Begin(device)
        | Order::Drained(device)
        | Order::Swap(device)
        | Order::Remove(device)
        | Order::Message(device, _, _)
        | Order::Status(device)
        | Order::Table(device) => Some(DevNo::Dm(*device)),
        Order::Sleep(_) | Order::Replay | Order::Wait => None,
    }
}

/// Appends the word of a micro-command, if there is one.
pub fn push_micro(text: &mut Vec<u8>, micro: Option<&Micro>) -> Result<(), NoMemory>
    ensures text { OnOk result (text.new.items
        ≡ text.old.items ++ micro_word (option_copied micro.entry)) }
{
    match micro {
        Some(micro) => push_order(text, &micro.order),
        None => Ok(()),
    }
}

/// Appends the word of a micro-command.
fn push_order(text: &mut Vec<u8>, order: &Order) -> Result<(), NoMemory>
    ensures { OnOk result (text.new.items ≡ text.old.items ++ order_word order.now) }
{
    match order {
        Order::Create(_, _) => push_word(text, b"create"),
        Order::Load(_, _) => push_word(text, b"load"),
        Order::Clear(_) => push_word(text, b"clear"),
        Order::Begin(_) => push_word(text, b"begin"),
        Order::Drained(_) => push_word(text, b"drained"),
        Order::Swap(_) => push_word(text, b"swap"),
        Order::Remove(_) => push_word(text, b"remove"),
        Order::Message(_, _, _) => push_word(text, b"message"),
        Order::Status(_) => push_word(text, b"status"),
        Order::Table(_) => push_word(text, b"table"),
        Order::Sleep(_) => push_word(text, b"sleep"),
        Order::Replay => push_word(text, b"replay"),
        Order::Wait => push_word(text, b"wait"),
    }
}
