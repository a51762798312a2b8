// What the crates share that run a line of a file of cases: a case is a line of text, and so is its answer.
#![tactic(auto)]

mod fill;
mod given;
mod line;

pub use case_scan::{Decimal, at, line_end, number, runs};
pub use fill::{
    FILLING, MOST, filled, put_call, put_filled, put_place, put_told, reach, whole_rows,
};
pub use given::{after, any_number};
pub use line::{checksum, put_answer, put_bytes, put_hex, put_part, put_words, unchanged};
pub use lines::Line;
