// Scanning a line of cases: where it ends, a byte, a decimal number, and bytes as runs of hex digits.
#![tactic(auto)]

ghost use Rattle.std.specs.Prelude.{◌≡◌, ◌+◌, ◌-◌, ◌≤◌, [], ◌∷◌, get_or, length, MatchOption};
ghost use Rattle.lines.specs.Line.{Put, Counts};
ghost use Rattle.lines.specs.Written.{Puts};
ghost use Rattle.case_scan.specs.Scan.{LineEnd, Numeral, number_at, number_end, pairs_at, pairs_end, times, run_at, run_end, runs_at};

use lines::Line;
use octets::wide;

// A decimal number, and the place after its last digit.
#[derive(Clone, Copy)]
pub struct Decimal {
    pub value: usize,
    pub next: usize,
}

// The byte at a place, or a newline past the end, which ends whatever is scanned.
pub fn at(s: &[u8], i: usize) -> u8
    ensures { result ≡ get_or s.now i 10 }
{
    if i < s.len() { s[i] } else { b'\n' }
}

// The place of the first newline at or after `from`, or the end.
pub fn line_end(s: &[u8], from: usize) -> usize
    ensures { LineEnd s.now from result }
{
    for i in from..s.len() {
        if s[i] == b'\n' {
            return i;
        }
    }
    s.len().max(from)
}

// The decimal number at a place: as many digits as there are, but no more once another could take it past 2 to the 63 and 1.
pub fn number(s: &[u8], from: usize) -> Decimal
    ensures { Numeral s.now from result.value result.next
        × ((result.value ≡ number_at s.now from) × (result.next ≡ number_end s.now from)) }
{
    let mut value: usize = 0;
    for i in from..s.len() {
        let b = s[i];
        if b < b'0' {
            return Decimal { value, next: i };
        }
        if b'9' < b {
            return Decimal { value, next: i };
        }
        if 922337203685477580 < value {
            return Decimal { value, next: i };
        }
        value = value * 10 + wide(b - b'0');
    }
    Decimal {
        value,
        next: s.len().max(from),
    }
}

// The byte of the pair of hex digits that stands at a place, if one does.
fn pair_at(s: &[u8], i: usize) -> Option<u8>
    ensures { MatchOption result (pairs_at s.now i ≡ []) (λ b. (i + 2 ≤ length s.now) × (pairs_at s.now i ≡ b ∷ pairs_at s.now (i + 2))) }
{
    if s.len() <= i {
        return None;
    }
    let high = octets::hex_value(at(s, i));
    if high == 16 {
        return None;
    }
    let low = octets::hex_value(at(s, i + 1));
    if low == 16 {
        return None;
    }
    Some((high * 16 + low) as u8)
}

// Puts down the bytes of the pairs of hex digits that stand at `from`, and gives the place after them.
fn take_pairs(s: &[u8], from: usize, out: &mut Line) -> usize
    ensures { (result ≡ pairs_end s.now from) × Puts out.old (pairs_at s.now from) out.new }
{
    let mut i = from;
    while let Some(byte) = pair_at(s, i) {
        out.put(byte);
        i += 2;
    }
    i
}

// Puts down the bytes of the pairs at `from`, which stand there once, again until they stand there `count` times.
fn repeat(s: &[u8], from: usize, count: usize, out: &mut Line)
    ensures { Puts out.old (times (count - 1) (pairs_at s.now from)) out.new }
{
    for _ in 1..count {
        take_pairs(s, from, out);
    }
}

// Puts down one run, pairs of hex digits and perhaps `*COUNT`, and gives the place after it.
fn take_run(s: &[u8], from: usize, out: &mut Line) -> usize
    ensures { (result ≡ run_end s.now from) × Puts out.old (run_at s.now from) out.new }
{
    let after = take_pairs(s, from, out);
    if at(s, after) != b'*' {
        return after;
    }
    let count = number(s, after + 1);
    repeat(s, from, count.value, out);
    count.next
}

// Puts down the bytes of all runs that stand at `from`, each after a space.
fn take_runs(s: &[u8], from: usize, out: &mut Line)
    ensures { Puts out.old (runs_at s.now from) out.new }
{
    let mut i = from;
    while at(s, i) == b' ' {
        i = take_run(s, i + 1, out);
    }
}

// The bytes of all runs that stand at `from`, each after a space, put at the start of `out` as far as it has room, and
// how many were put there.
pub fn runs(s: &[u8], from: usize, out: &mut [u8]) -> usize
    ensures { Counts result out.new × Put out.old 0 (runs_at s.now from) out.new result }
{
    let mut line = Line::new(out, 0);
    take_runs(s, from, &mut line);
    line.at()
}
