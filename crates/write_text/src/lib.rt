// Text put down in C40 (document 01, C40 and Layout) for the writer, which has judged its characters: none is judged again.
#![tactic(auto)]

ghost use Rattle.std.specs.Prelude.{◌≡◌, ◌+◌, ◌<◌, ◌≤◌, length};
ghost use Rattle.format.specs.BigEndian.{be};
ghost use Rattle.format.specs.Buffer.{over};
ghost use Rattle.octets.specs.Copy.{copied, reached};
ghost use Rattle.write_text.specs.Coded.{coded};

use octets::low;
use pairs::{number_of, number_of_one, number_of_two};

// Puts down the last two bytes of a number, big-endian, from a place on. What the crates share asks nothing of a caller, so there it
// would test for the room of each pair.
fn put_two(number: usize, out: &mut [u8], at: usize)
    requires { at + 2 ≤ length out.old }
    ensures { out.new ≡ over out.old at (be 2 number) }
{
    out[at] = low(number >> 8);
    out[at + 1] = low(number);
}

// The number of the last pair, for the one or two characters that are left over.
fn number_of_left(left: &[u8]) -> usize
    requires { (0 < length left.now) × (length left.now < 3) }
    ensures { (be 2 result ≡ coded left.now) × (result < 65536) }
{
    if left.len() == 2 {
        return number_of_two(left[0], left[1]);
    }
    number_of_one(left[0])
}

// Puts down characters in C40, three at a time, where there is room for them.
fn put_pairs(text: &[u8], out: &mut [u8], start: usize) -> usize
    requires { start + length (coded text.now) ≤ length out.old }
    ensures place { result ≡ start + length (coded text.now) }
    ensures buffer { out.new ≡ over out.old start (coded text.now) }
{
    let n = text.len();
    // two indices, as three characters make two bytes: chunks of the text would leave the second
    let mut at = start;
    let mut i: usize = 0;
    while i + 2 < n {
        put_two(number_of(text[i], text[i + 1], text[i + 2]), out, at);
        i += 3;
        at += 2;
    }
    if i < n {
        put_two(number_of_left(&text[i..]), out, at);
        return at + 2;
    }
    at
}

// Puts down characters in C40 from a place on and answers the place reached; where they do not fit, nothing is put down
// and the place stays.
pub fn put_text(text: &[u8], out: &mut [u8], at: usize) -> usize
    ensures place { result ≡ reached (coded text.now) (length out.old) at }
    ensures buffer { out.new ≡ copied (coded text.now) out.old at }
{
    let room = out.len();
    if room < at {
        return at;
    }
    // three characters for each pair of bytes that there is room for
    if ((room - at) >> 1) * 3 < text.len() {
        return at;
    }
    put_pairs(text, out, at)
}
