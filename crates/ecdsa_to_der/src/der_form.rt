// The DER form of a signature: where a number's digits start, its size, its bytes.
ghost use Rattle.std.specs.Prelude.{◌≡◌, ◌∷◌, ◌+◌, ◌<◌, ◌≤◌, length};
ghost use Rattle.format.specs.Buffer.{over};
ghost use Rattle.octets.specs.Copy.{copied, reached};
ghost use Rattle.format.specs.Order.{in_room};
ghost use Rattle.der.specs.Length.{form};
ghost use Rattle.der.specs.Content.{shortest, integer};
ghost use Rattle.ecdsa.specs.Signature.{content_from, signature};
ghost use Rattle.ecdsa_to_der.specs.Places.{Room, Numbers};
ghost use Rattle.format.specs.Answers.{told, filled};
ghost use Rattle.ecdsa.specs.Calls.{to_der_of};

use ecdsa::ToDerError;

// Where the digits of a number start that are kept: leading zeros go, but not the last byte.
pub(crate) fn start_of(number: &[u8]) -> usize
    requires { 0 < length number.now }
    ensures { (result < length number.now) × (shortest (0 ∷ number.now) ≡ content_from number.now result) }
{
    let last = number.len() - 1;
    for k in 0..last {
        if number[k] != 0 {
            return k;
        }
    }
    last
}

// How many bytes the content takes: one more where the top bit is set.
pub(crate) fn size_from(number: &[u8], start: usize) -> usize
    requires { start < length number.now }
    ensures { result ≡ length (content_from number.now start) }
{
    let n = number.len() - start;
    if number[start] < 0x80 {
        return n;
    }
    n + 1
}

// How many bytes stand before the content of a sequence: its tag and its length, below 256.
pub(crate) fn head_of(size: usize) -> usize
    requires { size < 256 }
    ensures { result ≡ length (0x30 ∷ form size) }
{
    1 + der::length_width(size)
}

// Puts down the tag and the length of a sequence.
pub(crate) fn put_head(size: usize, out: &mut [u8])
    requires { (size < 256) × (length (0x30 ∷ form size) ≤ length out.old) }
    ensures { out.new ≡ over out.old 0 (0x30 ∷ form size) }
{
    out[0] = 0x30;
    elements::put_length(size, out, 1);
}

// Puts down digits from a place on and answers the place reached; where they do not fit, nothing is put down. A loop of its own, as the
// library's copy of one lent slice to another needs `memmove`, which the archive is promised not to need.
fn put_digits(from: &[u8], out: &mut [u8], at: usize) -> usize
    ensures place { result ≡ reached from.now (length out.old) at }
    ensures buffer { out.new ≡ copied from.now out.old at }
{
    let n = from.len();
    let room = out.len();
    if room < at {
        return at;
    }
    if room - at < n {
        return at;
    }
    let mut i: usize = 0;
    while i < n {
        out[at + i] = from[i];
        i += 1;
    }
    at + n
}

// Puts down an INTEGER whose digits start there, and answers the place reached.
pub(crate) fn put_integer(number: &[u8], start: usize, out: &mut [u8], at: usize) -> usize
    requires { Room number.now start out.old at }
    ensures place { result ≡ at + length (integer (content_from number.now start)) }
    ensures buffer { out.new ≡ over out.old at (integer (content_from number.now start)) }
{
    let size = size_from(number, start);
    out[at] = 0x02;
    out[at + 1] = size as u8;
    if number[start] < 0x80 {
        return put_digits(&number[start..], out, at + 2);
    }
    out[at + 2] = 0;
    put_digits(&number[start..], out, at + 3)
}

// Puts down the DER form of r and s from the start of `out`; the room is judged before the first byte is written. For the five sizes the
// content never passes 138 bytes (`never_64` in specs/FormSize.antt of ecdsa), so its length is one that `head_of` and `put_head` take.
pub(crate) fn put_pair(r: &[u8], s: &[u8], out: &mut [u8]) -> Result<usize, ToDerError>
    requires { Numbers r.now s.now }
    ensures answer { to_der_of result ≡ told (in_room 63 (signature r.now s.now) (length out.old)) }
    ensures buffer { out.new
        ≡ filled (in_room 63 (signature r.now s.now) (length out.old)) out.old }
{
    let r_start = start_of(r);
    let s_start = start_of(s);
    let size = size_from(r, r_start) + size_from(s, s_start) + 4;
    let head = head_of(size);
    if out.len() < head + size {
        return Err(ToDerError::NoRoom);
    }
    put_head(size, out);
    let at = put_integer(r, r_start, out, head);
    put_integer(s, s_start, out, at);
    Ok(head + size)
}
