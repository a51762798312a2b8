// One pair of C40 bytes (document 01, C40; Doc 9303-13, 2.6): the chart, what a pair may carry, and the number of characters as a pair.
#![tactic(auto)]

mod chart;
mod decode;
mod encode;

pub use chart::{the_chart, value_of};
pub use decode::{Fault, Pair, Values};
pub use encode::{number_of, number_of_one, number_of_two};
