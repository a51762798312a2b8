// Text written in C40 bytes, with a way of its own for long ones (document 01, C40; Doc 9303-13, 2.6). A long text is judged and coded in
// one pass, into memory of its own; whatever is not good there is left to `c40_write`, which says what is wrong.
#![tactic(auto)]

ghost use Rattle.std.specs.Prelude.{◌≡◌, true, ◌+◌, ◌≤◌, length};
ghost use Rattle.format.specs.BigEndian.{be};
ghost use Rattle.format.specs.Buffer.{over};
ghost use Rattle.format.specs.Answers.{told, filled};
ghost use Rattle.c40.specs.Text.{Text, publish, width};
ghost use Rattle.c40.specs.Calls.{writing, writing_of};

use c40::WriteError;
use c40_write::Turned;
use octets::{low, wide};

// Puts down the last two bytes of a number, big-endian, from a place on. What the crates share asks nothing of a caller, so there it
// would test for the room of each pair.
fn put_two(number: usize, out: &mut [u8], at: usize)
    requires { at + 2 ≤ length out.old }
    ensures { out.new ≡ over out.old at (be 2 number) }
{
    out[at] = low(number >> 8);
    out[at + 1] = low(number);
}

// Puts down the last pair, for the one or two characters that are left over, if any, and says whether they are in the chart: two are
// completed with 0, one is FE and its code plus 1.
fn put_left(values: &Turned, left: &[u8], bytes: &mut [u8; 4096], at: usize) -> bool
    requires { (length bytes.old ≡ 4096) × (length left.now ≤ 2) × (at + width (length left.now) ≤ 4096) }
    ensures good { result ≡ true → Text left.now }
    ensures put { result ≡ true → bytes.new ≡ over bytes.old at (publish left.now) }
{
    if left.len() == 2 {
        let a = values.entry(left[0]);
        let b = values.entry(left[1]);
        if 128 <= (a | b) {
            return false;
        }
        put_two(1600 * wide(a) + 40 * wide(b) + 1, bytes, at);
        return true;
    }
    if left.len() == 1 {
        let a = left[0];
        if 128 <= values.entry(a) {
            return false;
        }
        put_two(0xFE00 + wide(a) + 1, bytes, at);
    }
    true
}

// Puts down text of at most 6,144 characters, three at a time, with no test for each, and says whether all are in the chart: their values
// together have no mark.
fn put_text(values: &Turned, text: &[u8], bytes: &mut [u8; 4096]) -> bool
    requires { (length bytes.old ≡ 4096) × (length text.now ≤ 6144) }
    ensures good { result ≡ true → Text text.now }
    ensures put { result ≡ true → bytes.new ≡ over bytes.old 0 (publish text.now) }
{
    let n = text.len();
    let mut marks: u8 = 0;
    // two indices, as three characters make two bytes: chunks of the text would leave the second
    let mut i: usize = 0;
    let mut at: usize = 0;
    while i + 2 < n {
        let a = values.entry(text[i]);
        let b = values.entry(text[i + 1]);
        let c = values.entry(text[i + 2]);
        marks = marks | a | b | c;
        put_two(1600 * wide(a) + 40 * wide(b) + wide(c) + 1, bytes, at);
        i += 3;
        at += 2;
    }
    if 128 <= marks {
        return false;
    }
    put_left(values, &text[i..], bytes, at)
}

// Writes text into `out` as C40 bytes, and answers their count: all characters are judged before the room is, and both before the first
// byte is written.
pub fn write(text: &[u8], out: &mut [u8]) -> Result<usize, WriteError>
    ensures answer { writing_of result ≡ told (writing text.now (length out.old)) }
    ensures buffer { out.new ≡ filled (writing text.now (length out.old)) out.old }
{
    let n = text.len();
    // below it the memory of its own costs more than it saves
    if n < 384 {
        return c40_write::write(text, out);
    }
    if 6144 < n {
        return Err(WriteError::TooLong);
    }
    let values = c40_write::turned_chart();
    let mut bytes = [0u8; 4096];
    if !put_text(&values, text, &mut bytes) {
        return c40_write::write(text, out);
    }
    let size = octets::threes(n + 2) * 2;
    if out.len() < size {
        return Err(WriteError::NoRoom);
    }
    octets::copy(&bytes[..size], out, 0);
    Ok(size)
}
