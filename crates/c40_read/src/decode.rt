// From C40 bytes to text: all pairs judged, the text put down.
ghost use Rattle.std.specs.Prelude.{◌≡◌, true, false, ◌+◌, ◌%◌, ◌<◌, ◌≤◌, length, Ok};
ghost use Rattle.format.specs.Buffer.{over};
ghost use Rattle.pairs.specs.Chart.{the_chart};
ghost use Rattle.pairs.specs.Pairs.{pair_of, chars_of};
ghost use Rattle.c40.specs.Decode.{decode, judged_of, text_of, Even, Good};
ghost use Rattle.c40_read.specs.Full.{Stopped};

use c40::WrongPair;
use octets::wide;
use pairs::Pair;
use unpack::{carried, is_full, pair_of, split};

// The place of the first pair before the last that does not carry three characters, or else the last one's place.
fn full(bytes: &[u8], last: usize) -> usize
    requires { (last % 2 ≡ 0) × (last ≤ length bytes.now) }
    ensures { Stopped bytes.now last result }
{
    for i in (0..last).step_by(2) {
        if !is_full(bytes[i], bytes[i + 1]) {
            return i;
        }
    }
    last
}

// Puts down the characters of a pair from a place on.
fn put_pair(pair: Pair, out: &mut [u8], at: usize)
    requires { at + length (chars_of (Ok pair)) ≤ length out.old }
    ensures { out.new ≡ over out.old at (chars_of (Ok pair)) }
{
    match pair {
        Pair::Three(a, b, c) => {
            out[at] = a;
            out[at + 1] = b;
            out[at + 2] = c;
        }
        Pair::Two(a, b) => {
            out[at] = a;
            out[at + 1] = b;
        }
        Pair::One(a) => {
            out[at] = a;
        }
    }
}

// The chart under its promise, so that no function asks for it.
#[derive(Drop)]
pub(crate) struct Chart {
    entries: [u8; 40],
    ghost is_chart: { entries ≡ the_chart },
}

impl Chart {
    // Takes the chart, once a call.
    pub(crate) fn new() -> Self {
        Chart {
            entries: pairs::the_chart(),
        }
    }

    // How many characters the pairs of an even number of bytes carry together, all judged from the left: only the last, or one that is not
    // full, is taken apart.
    pub(crate) fn judge(&self, bytes: &[u8]) -> Result<usize, WrongPair>
        requires { Even bytes.now }
        ensures { result ≡ judged_of (decode 0 bytes.now) }
    {
        let n = bytes.len();
        if n == 0 {
            return Ok(0);
        }
        let last = n - 2;
        let at = full(bytes, last);
        let pair = pair_of(&self.entries, bytes[at], bytes[at + 1], at == last);
        match pair {
            Ok(_) => Ok((last >> 1) * 3 + carried(pair)),
            Err(fault) => Err(WrongPair { fault, place: at }),
        }
    }

    // What a pair carries that was judged good and is not the last: three characters, with no test left to make.
    fn three(&self, x: u8, y: u8) -> Pair
        requires { length (chars_of (pair_of the_chart false x y)) ≡ 3 }
        ensures { Ok result ≡ pair_of the_chart false x y }
    {
        let v = split(wide(x) * 256 + wide(y) - 1);
        let a = v.a;
        let b = v.b;
        let c = v.c;
        Pair::Three(self.entries[a], self.entries[b], self.entries[c])
    }

    // What the last pair carries that was judged good: its number and its third value tell how many characters.
    fn last(&self, x: u8, y: u8) -> Pair
        requires { 0 < length (chars_of (pair_of the_chart true x y)) }
        ensures { Ok result ≡ pair_of the_chart true x y }
    {
        let number = wide(x) * 256 + wide(y);
        if 64000 < number {
            return Pair::One(y - 1);
        }
        let v = split(number - 1);
        let a = v.a;
        let b = v.b;
        let c = v.c;
        if c == 0 {
            return Pair::Two(self.entries[a], self.entries[b]);
        }
        Pair::Three(self.entries[a], self.entries[b], self.entries[c])
    }

    // Puts down the text of bytes that were judged good from the start of `out`, which has room for it.
    pub(crate) fn put(&self, bytes: &[u8], out: &mut [u8])
        requires { Good bytes.now out.old }
        ensures { out.new ≡ over out.old 0 (text_of (decode 0 bytes.now)) }
    {
        let n = bytes.len();
        // two indices, as two bytes carry three characters: chunks of the bytes would leave the second
        let mut i: usize = 0;
        let mut at: usize = 0;
        while i + 2 < n {
            put_pair(self.three(bytes[i], bytes[i + 1]), out, at);
            i += 2;
            at += 3;
        }
        if i < n {
            put_pair(self.last(bytes[i], bytes[i + 1]), out, at);
        }
    }
}
