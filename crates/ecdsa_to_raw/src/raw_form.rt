// The raw form of a signature: strict INTEGERs read, their digits put down with leading zeros.
ghost use Rattle.std.specs.Prelude.{◌≡◌, ◌++◌, ◌+◌, ◌<◌, ◌≤◌, length};
ghost use Rattle.format.specs.Buffer.{over};
ghost use Rattle.format.specs.Answers.{told, filled};
ghost use Rattle.ecdsa.specs.Strict.{raw, part, digits_in, number_in, lastly, pair_in, padded};
ghost use Rattle.ecdsa.specs.Calls.{to_raw_of};
ghost use Rattle.ecdsa_to_raw.specs.Rawed.{rawed};

use ecdsa::{Digits, ToRawError};

// The INTEGER at the head of `t`, if it is a number for n bytes: 02, one byte of length, as no longer one is for so few, and the content.
pub(crate) fn number_in(n: usize, t: &[u8]) -> Option<Digits>
    requires { (0 < n) × (n < 127) }
    ensures { result ≡ number_in n t.now }
{
    let m = t.len();
    if m < 3 {
        return None;
    }
    if t[0] != 0x02 {
        return None;
    }
    let size = octets::wide(t[1]);
    if m - 2 < size {
        return None;
    }
    digits_of(n, t, size)
}

// The digits of content of so many bytes that begins at 2: of the shortest form, not negative, and not more than n without a 00 that only
// says so.
pub(crate) fn digits_of(n: usize, t: &[u8], size: usize) -> Option<Digits>
    requires { (0 < n) × (n < 127) × (size + 2 ≤ length t.now) }
    ensures { result ≡ digits_in n 2 (size + 2) (part 2 (size + 2) t.now) }
{
    if size == 0 {
        return None;
    }
    if 0x80 <= t[2] {
        return None;
    }
    if size == 1 {
        return Some(Digits { start: 2, end: 3 });
    }
    let end = size + 2;
    if t[2] == 0 {
        if t[3] < 0x80 {
            return None;
        }
        if n + 1 < size {
            return None;
        }
        return Some(Digits { start: 3, end });
    }
    if n < size {
        return None;
    }
    Some(Digits { start: 2, end })
}

// Puts down digits in n bytes, with leading zeros.
pub(crate) fn put_padded(digits: &[u8], n: usize, out: &mut [u8], at: usize)
    requires { (length digits.now ≤ n) × (at + n ≤ length out.old) }
    ensures { out.new ≡ over out.old at (padded n digits.now) }
{
    let zeros = n - digits.len();
    let from = at + zeros;
    out[at..from].fill(0);
    blocks::copy_lent(digits, &mut out[from..]);
}

// Puts down r and s from the start of `out`, n bytes each, where there is room for both.
pub(crate) fn put_both(n: usize, r: &[u8], s: &[u8], out: &mut [u8]) -> Result<usize, ToRawError>
    requires { (n < 127) × (length r.now ≤ n) × (length s.now ≤ n) }
    ensures answer { to_raw_of result
        ≡ told (rawed n (raw (padded n r.now ++ padded n s.now)) (length out.old)) }
    ensures buffer { out.new
        ≡ filled (rawed n (raw (padded n r.now ++ padded n s.now))
        (length out.old)) out.old }
{
    let count = 2 * n;
    if out.len() < count {
        return Err(ToRawError::NoRoom);
    }
    put_padded(r, n, out, 0);
    put_padded(s, n, out, n);
    Ok(count)
}

// Reads s, which is to be all that stands after r, and puts down both.
pub(crate) fn put_second(
    n: usize,
    r: &[u8],
    rest: &[u8],
    out: &mut [u8],
) -> Result<usize, ToRawError>
    requires { (0 < n) × (n < 127) × (length r.now ≤ n) }
    ensures answer { to_raw_of result
        ≡ told (rawed n (lastly n (padded n r.now) rest.now (number_in n rest.now))
        (length out.old)) }
    ensures buffer { out.new
        ≡ filled (rawed n (lastly n (padded n r.now) rest.now (number_in n rest.now))
        (length out.old)) out.old }
{
    let Some(s) = number_in(n, rest) else {
        return Err(ToRawError::NotStrict);
    };
    if s.end != rest.len() {
        return Err(ToRawError::NotStrict);
    }
    put_both(n, r, &rest[s.start..s.end], out)
}

// Reads r at the head of what the sequence holds, then s, and puts down both.
pub(crate) fn put_pair(n: usize, pair: &[u8], out: &mut [u8]) -> Result<usize, ToRawError>
    requires { (0 < n) × (n < 127) }
    ensures answer { to_raw_of result
        ≡ told (rawed n (pair_in n pair.now (number_in n pair.now)) (length out.old)) }
    ensures buffer { out.new
        ≡ filled (rawed n (pair_in n pair.now (number_in n pair.now))
        (length out.old)) out.old }
{
    let Some(r) = number_in(n, pair) else {
        return Err(ToRawError::NotStrict);
    };
    put_second(n, &pair[r.start..r.end], &pair[r.end..], out)
}
