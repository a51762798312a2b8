// DER elements (document 01; X.690): one read at the head of a byte string, and the length of one put down.
#![tactic(auto)]

ghost use Rattle.std.specs.Prelude.{◌≡◌, ◌^◌, ◌<◌, ◌≤◌, Ok, length};
ghost use Rattle.octets.specs.Copy.{copied, reached};
ghost use Rattle.der.specs.Length.{written};
ghost use Rattle.der.specs.Element.{body_in, element_in};

use der::{Body, Form, Length, length_form, length_width, read_length};

// Where a body starts and ends whose length was read, if so many bytes after the tag hold it whole.
fn body_in(room: usize, read: Length) -> Option<Body>
    requires { (read.width ≤ room) × (room < 2 ^ 63) }
    ensures { result ≡ body_in room (Ok read) }
{
    if room - read.width < read.size {
        return None;
    }
    let start = read.width + 1;
    let end = start + read.size;
    Some(Body { start, end })
}

// The body of the element with this tag at the head of `s`; none with another tag, without a length, or where it is not whole.
pub fn element_of(tag: u8, s: &[u8]) -> Option<Body>
    ensures { result ≡ element_in tag s.now }
{
    let n = s.len();
    if n == 0 {
        return None;
    }
    if s[0] != tag {
        return None;
    }
    let Ok(read) = read_length(&s[1..]) else {
        return None;
    };
    body_in(n - 1, read)
}

// Puts down the length of this size from a place on and answers the place reached; where it does not fit, or is longer,
// nothing is written and the place stays.
pub fn put_length(size: usize, out: &mut [u8], at: usize) -> usize
    ensures place { result ≡ reached (written size) (length out.old) at }
    ensures buffer { out.new ≡ copied (written size) out.old at }
{
    let room = out.len();
    if room < at {
        return at;
    }
    if room - at < length_width(size) {
        return at;
    }
    match length_form(size) {
        Some(Form::One(a)) => {
            out[at] = a;
            at + 1
        }
        Some(Form::Two(a, b)) => {
            out[at] = a;
            out[at + 1] = b;
            at + 2
        }
        Some(Form::Three(a, b, c)) => {
            out[at] = a;
            out[at + 1] = b;
            out[at + 2] = c;
            at + 3
        }
        None => at,
    }
}
