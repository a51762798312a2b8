// The size of a seal before it is written (document 01, number 27): a sum that stops at 4,097, so that it never wraps.
#![tactic(auto)]

ghost use Rattle.std.specs.Prelude.{◌≡◌, min, ◌+◌, ◌≤◌, length};
ghost use Rattle.grammar.specs.Publish.{length_of};
ghost use Rattle.rows.specs.Rows.{rows_of};
ghost use Rattle.write_size.specs.SealSize.{rows_size, names_size, seal_size};

use rows::TableRows;
use versions::Version;

// How many bytes a length takes.
fn width_of(version: Version, size: usize) -> usize
    requires { size ≤ 4096 }
    ensures { result ≡ length (length_of version size) }
{
    if let Version::Three = version {
        return 1;
    }
    der::length_width(size)
}

// A start and the size of the features after it.
fn rows_size(version: Version, rows: &[usize], start: usize) -> usize
    requires { start ≤ 4096 }
    ensures { result ≡ min (start + rows_size version (rows_of rows.now)) 4097 }
{
    let mut total = start;
    for row in TableRows::of(rows) {
        let size = row.size;
        if 4096 < size {
            return 4097;
        }
        total += 1 + width_of(version, size) + size;
        if 4096 < total {
            return 4097;
        }
    }
    total
}

// How many bytes signer and reference take, of so many characters; over 6,144 they take more than 4,096, and 4,097 is told.
fn names_size(version: Version, text: usize) -> usize
    ensures { (min result 4097 ≡ min (names_size version text) 4097) × (result ≤ 4098) }
{
    if let Version::Three = version {
        return 6;
    }
    if 6144 < text {
        return 4097;
    }
    octets::threes(text + 4) * 2
}

// The size of a seal with so many characters of text and bytes of signature, up to 4,097.
pub fn seal_size(version: Version, text: usize, rows: &[usize], signature: usize) -> usize
    ensures { result ≡ min (seal_size version text (rows_of rows.now) signature) 4097 }
{
    if 4096 < signature {
        return 4097;
    }
    let fixed = 12 + names_size(version, text) + 1 + width_of(Version::Four, signature) + signature;
    if 4096 < fixed {
        return 4097;
    }
    rows_size(version, rows, fixed)
}
