// From text to C40 bytes, by the chart turned round: all characters judged, the bytes put down.
ghost use Rattle.std.specs.Prelude.{◌≡◌, ◌+◌, ◌<◌, ◌≤◌, leb, length, get_or};
ghost use Rattle.format.specs.BigEndian.{be};
ghost use Rattle.format.specs.Buffer.{over};
ghost use Rattle.c40.specs.Text.{Text, publish, width};
ghost use Rattle.c40.specs.Calls.{known as known_of};
ghost use Rattle.c40_write.specs.Turned.{turned};

use crate::turned::Turned;
use octets::{low, wide};
use pairs::number_of_one;

// Puts down the last two bytes of a number, big-endian, from a place on. What the crates share asks nothing of a caller, so there it
// would test for the room of each pair.
fn put_two(number: usize, out: &mut [u8], at: usize)
    requires { at + 2 ≤ length out.old }
    ensures { out.new ≡ over out.old at (be 2 number) }
{
    out[at] = low(number >> 8);
    out[at + 1] = low(number);
}

impl Turned {
    // Whether all characters are in the chart: their values together, with no test for each, have no mark.
    pub(crate) fn all_known(&self, text: &[u8]) -> bool
        ensures { result ≡ leb (length text.now) (known_of text.now) }
    {
        let mut marks: u8 = 0;
        for c in text {
            marks |= self.entry(*c);
        }
        marks < 128
    }

    // The index of the first character that is not in the chart, or the length.
    pub(crate) fn known(&self, text: &[u8]) -> usize
        ensures { result ≡ known_of text.now }
    {
        for (i, c) in text.iter().enumerate() {
            if 128 <= self.entry(*c) {
                return i;
            }
        }
        text.len()
    }

    // The value of a character.
    fn value(&self, c: u8) -> usize
        ensures { result ≡ get_or turned c 0 }
    {
        wide(self.entry(c))
    }

    // Puts down the C40 bytes of text from the start of `out`, which has room for them: 1600a + 40b + c + 1 for three values; two left
    // over are completed with 0, one is FE and its code plus 1.
    pub(crate) fn put(&self, text: &[u8], out: &mut [u8])
        requires { Text text.now × (width (length text.now) ≤ length out.old) }
        ensures { out.new ≡ over out.old 0 (publish text.now) }
    {
        let n = text.len();
        // two indices, as three characters make two bytes: chunks of the text would leave the second
        let mut i: usize = 0;
        let mut at: usize = 0;
        while i + 2 < n {
            let pair = 1600 * self.value(text[i]) + 40 * self.value(text[i + 1]);
            put_two(pair + self.value(text[i + 2]) + 1, out, at);
            i += 3;
            at += 2;
        }
        if i + 2 == n {
            let pair = 1600 * self.value(text[i]) + 40 * self.value(text[i + 1]);
            put_two(pair + 1, out, at);
        } else if i < n {
            put_two(number_of_one(text[i]), out, at);
        }
    }
}
