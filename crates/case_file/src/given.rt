// What a line gives besides its runs: where a part of a case stands, and any number of 64 bits.
ghost use Rattle.std.specs.Prelude.{◌≡◌, ◌≤◌, length};
ghost use Rattle.case_file.specs.Line.{Within};
ghost use Rattle.case_file.specs.Given.{after_first, any_number_at, any_number_end};

use case_scan::{Decimal, at, number};

// The greatest number of 64 bits.
const GREATEST: usize = 18446744073709551615;

// The place after the first such letter, or the end: where a part of a case stands.
pub fn after(line: &[u8], letter: u8) -> usize
    ensures upper_bound { result ≤ length line.now }
    ensures value { result ≡ after_first letter line.now }
{
    match line.iter().position(|b| *b == letter) {
        Some(i) => i + 1,
        None => line.len(),
    }
}

// The decimal number at a place; after `~` it is counted down from the greatest, which has more digits than are read.
pub fn any_number(line: &[u8], from: usize) -> Decimal
    ensures from_le_next { (from ≤ result.next) × Within line.now from result.next }
    ensures value_value { (result.value ≡ any_number_at line.now from) × (result.next ≡ any_number_end line.now from) }
{
    if at(line, from) == b'~' {
        let less = number(line, from + 1);
        return Decimal {
            value: GREATEST - less.value,
            next: less.next,
        };
    }
    number(line, from)
}
