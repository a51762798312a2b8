// The rows that the writer is given, judged (document 01, numbers 24 and 25), each by the place of its first number.
#![tactic(auto)]

ghost use Rattle.std.specs.Prelude.{◌≡◌, ◌+◌, leb};
ghost use Rattle.write_rows.specs.Tests.{is_table, are_values};

use rows::{Row, TableRows, WIDTH, row_at};
use versions::Version;

// Whether a row's value stands inside a buffer of so many bytes; the sum of place and size might wrap, so they are compared apart.
fn is_inside(row: Row, size: usize) -> bool
    ensures { result ≡ leb (row.place + row.size) size }
{
    if size < row.place {
        return false;
    }
    row.size <= size - row.place
}

// Whole rows, no tag over 254 or used twice, and every value inside a buffer of so many bytes. The tags so far are marked, so that one
// walk over the rows judges them; they are whole where the walk ends at the table's end, however many numbers a row has.
pub fn are_rows(table: &[usize], size: usize) -> bool
    ensures { result ≡ is_table size table.now }
{
    let mut marks = [0u8; 255];
    // the place is counted here, since where the walk ends is asked after it
    let mut at: usize = 0;
    while let Some(row) = row_at(table, at) {
        let tag = row.tag;
        if 254 < tag {
            return false;
        }
        if marks[tag] == 1 {
            return false;
        }
        if !is_inside(row, size) {
            return false;
        }
        marks[tag] = 1;
        at += WIDTH;
    }
    at == table.len()
}

// In version 3 no value is over 255 bytes.
pub fn are_values(version: Version, table: &[usize]) -> bool
    ensures { result ≡ are_values version table.now }
{
    if let Version::Four = version {
        return true;
    }
    for row in TableRows::of(table) {
        if 255 < row.size {
            return false;
        }
    }
    true
}
