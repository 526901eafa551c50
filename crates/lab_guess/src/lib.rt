//! The line that a tester may have meant by a line that no part of a bundle can have.
#![tactic(auto)]

mod chance;
mod counted;
mod dd;
mod delays;
mod draft;
mod ends;
mod features;
mod flakey;
mod groups;
mod iolog;
mod joined;
mod limits;
mod message;
mod moved;
mod named;
mod numbers;
mod offset;
mod order;
mod print;
mod ranges;
mod script;
mod signs;
mod table;
mod targets;
mod tidied;
mod two_on_one;
mod units;
mod values;
mod waits;

pub use chance::{chance_at_fault, has_chance, with_chances};
pub use counted::{is_command, is_event, is_mark, is_of_log, without_number};
pub use dd::{is_dd, operation_of_dd};
pub use delays::milliseconds_meant;
pub use draft::Draft;
pub use ends::{from_end, length_through_end, length_to_end, through_end};
pub use features::{foreign_feature, is_feature, with_count_first, with_features};
pub use flakey::miscounts;
pub use groups::{with_groups, with_offsets};
pub use iolog::{action_meant, action_near, mended_log_line, without_time};
pub use joined::{two_commands, two_rows};
pub use limits::{of_nanoseconds, past_command_limit, past_log_limit, past_table_limit};
pub use message::{
    exchanged_message, has_block, has_no_block, message_meant, message_of_verb, ordered_message,
    with_block,
};
pub use moved::{device_moved, devices_exchanged, is_device, with_extent, with_type};
pub use named::name_near;
pub use numbers::{Unit, has_point, meant};
pub use offset::{lacks_offset, with_offset};
pub use order::type_moved;
pub use print::in_ascii;
pub use ranges::{with_range, with_range_joined};
pub use script::{mended_command, takes_name, takes_table, verb_near, without_dmsetup};
pub use signs::{with_blanks, with_device_parted, without_commas, without_labels};
pub use table::{
    from_start, mended_table_line, put_in_words, start_wanted, type_near, with_word,
    without_comment, without_fields, without_name, without_remark,
};
pub use targets::{instead_of, is_lacking, is_row, is_type};
pub use tidied::{exchanged, without_doubles, without_marks};
pub use two_on_one::{is_sign, two_lines, words_from};
pub use units::{with_joined_units, without_suffixes};
pub use values::{value_at_fault, value_meant, with_values};
pub use waits::{SCALES, time_meant};
