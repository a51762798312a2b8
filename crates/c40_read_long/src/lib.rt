// C40 bytes read as text, by a chart that is laid out for long ones (document 01, C40; Doc 9303-13, 2.6). A long text is read once, into
// memory of its own, two look-ups a pair; whatever is not good there is left to `c40_read`, which says what is wrong.
#![tactic(auto)]

ghost use Rattle.std.specs.Prelude.{◌≡◌, true, ◌<◌, ◌≤◌, length};
ghost use Rattle.format.specs.Answers.{told, filled};
ghost use Rattle.pairs.specs.Chart.{the_chart};
ghost use Rattle.c40.specs.Calls.{reading, reading_of};
ghost use Rattle.c40_read_long.specs.Laid.{Heads, Tails, Long, Room, Full, Front, Told};

use c40::ReadError;
use octets::{low, wide};

// The chart laid out in two tables: at each index stand the right characters, or 0.
#[derive(Drop)]
struct Tables {
    // the character of the first value, 0 to 40; of a shift, and of 40, there stays 0
    heads: [u8; 41],
    // those of the second and the third value by what the sixteen hundreds leave of a number, 1 to 1,600; where one of them is a shift, and
    // at 0, there stays 0
    tails: [u16; 1601],
    ghost heads_are_sound: { Heads heads },
    ghost tails_are_sound: { Tails tails },
}

impl Tables {
    // Lays out the chart, first the first value.
    fn lay(&mut self) {
        let chart = pairs::the_chart();
        let mut heads = [0; 41];
        heads[..40].copy_from_slice(&chart);
        self.heads = heads;
        for b in 3..40 {
            self.lay_row(&chart, b);
        }
    }

    // Lays out one second value, with each third.
    fn lay_row(&mut self, chart: &[u8; 40], b: usize)
        requires { (chart.now ≡ the_chart) × ((3 ≤ b) × (b < 40)) }
    {
        let second = chart[b] as u16;
        let from = b * 40 + 1;
        for c in 3..40 {
            self.tails[from + c] = (chart[c] as u16) * 256 + second;
        }
    }

    // Puts down the three characters of a pair from a place on, and says whether it has three; else nothing is put down. 41943 / 2^26
    // serves as 1 / 1600 just so that 1,600 times k is the last number with k - 1.
    fn put_full(&self, x: u8, y: u8, text: &mut [u8; 6144], at: usize) -> bool
        requires { Room text.old at }
        ensures { Full result x y text.old text.new at }
    {
        let number = wide(x) * 256 + wide(y);
        let a = (number * 41943) >> 26;
        let head = self.heads[a];
        if head == 0 {
            return false;
        }
        let tail = self.tails[number - a * 1600] as usize;
        if tail == 0 {
            return false;
        }
        text[at] = head;
        text[at + 1] = low(tail);
        text[at + 2] = low(tail >> 8);
        true
    }

    // Puts down all pairs before the last, two a turn, and says whether all of them have three characters.
    fn put_front(&self, bytes: &[u8], text: &mut [u8; 6144]) -> bool
        requires { Long bytes.now text.old }
        ensures { Front result bytes.now text.new }
    {
        let last = bytes.len() - 2;
        // two indices, as two bytes carry three characters: chunks of the bytes would leave the second
        let mut i: usize = 0;
        let mut at: usize = 0;
        if last & 2 == 2 {
            if !self.put_full(bytes[0], bytes[1], text, 0) {
                return false;
            }
            i = 2;
            at = 3;
        }
        while i < last {
            if !self.put_full(bytes[i], bytes[i + 1], text, at) {
                return false;
            }
            if !self.put_full(bytes[i + 2], bytes[i + 3], text, at + 3) {
                return false;
            }
            i += 4;
            at += 6;
        }
        true
    }
}

// Puts down the last pair, which is a text of its own, after those before it: so many characters then, or none where it is wrongly coded.
fn put_last(bytes: &[u8], text: &mut [u8]) -> Option<usize>
    requires { Long bytes.now text.old × Front true bytes.now text.old }
    ensures { Told result bytes.now text.new }
{
    let last = bytes.len() - 2;
    let at = (last >> 1) * 3;
    let read = c40_read::read(&bytes[last..], &mut text[at..]);
    let Ok(more) = read else {
        return None;
    };
    Some(at + more)
}

// Reads an even number of bytes, up to 4,096, into memory that has room for every text: so many characters, or none where some pair is
// wrongly coded.
fn lay_text(bytes: &[u8], text: &mut [u8; 6144]) -> Option<usize>
    requires { Long bytes.now text.old }
    ensures { Told result bytes.now text.new }
{
    let mut tables = Tables {
        heads: [0; 41],
        tails: [0; 1601],
    };
    tables.lay();
    if !tables.put_front(bytes, text) {
        return None;
    }
    put_last(bytes, text)
}

// Reads C40 bytes into `out` as text, and answers the count of its characters: all pairs are judged before the room is, and both before
// the first byte is written.
pub fn read(bytes: &[u8], out: &mut [u8]) -> Result<usize, ReadError>
    ensures answer { reading_of result ≡ told (reading bytes.now (length out.old)) }
    ensures buffer { out.new ≡ filled (reading bytes.now (length out.old)) out.old }
{
    let n = bytes.len();
    // below it the laying out costs more than it saves
    if n < 256 {
        return c40_read::read(bytes, out);
    }
    if 4096 < n {
        return Err(ReadError::TooLong);
    }
    if n & 1 == 1 {
        return Err(ReadError::Odd(n));
    }
    let mut text = [0u8; 6144];
    let laid = lay_text(bytes, &mut text);
    let Some(count) = laid else {
        return c40_read::read(bytes, out);
    };
    if out.len() < count {
        return Err(ReadError::NoRoom);
    }
    octets::copy(&text[..count], out, 0);
    Ok(count)
}
