// What walk reads and the text that it prints (document 01, "Program walk").
#![tactic(auto)]

mod counts;
mod input;
mod lines;

pub use counts::Counts;
pub use input::{
    Ending, INPUT_LIMIT, POLICY_BYTES, POLICY_INPUT_ROOM, RECORDS_AT, Records, Unfit, input_size,
    policy_words, read_policy,
};
pub use lines::{write_last_line, write_record_lines, write_size_line};
