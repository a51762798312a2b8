// How far features and signature can be completed to those of an accepted seal (document 02, Ticket 12). A seal has at
// most 4,096 bytes, so at a place `at` there is room for 4096 - at.
#![tactic(auto)]

ghost use Rattle.std.specs.Prelude.{◌≡◌, [], ◌∷◌, suc, ◌+◌, ◌-◌, ◌<◌, ◌≤◌, ltb, length, drop};
ghost use Rattle.format.specs.Choice.{pick};
ghost use Rattle.grammar.specs.Content.{four};
ghost use Rattle.front_message.specs.Message.{any_front, long_front, signature_front, last_of, after_one, after_high, after_two};
ghost use Rattle.front_message.specs.Message.{length_front, message_front};
ghost use Rattle.front_features.specs.Meaning.{counted_of, message_from};

use octets::wide;
use versions::Version;

// A feature's length: what it says, and the place after it.
#[derive(Clone, Copy, Debug, PartialEq, Eq)]
pub struct Counted {
    pub size: usize,
    pub next: usize,
}

// The error of a length of which not all can be completed: the place up to which it can.
#[derive(Clone, Copy, Debug, PartialEq, Eq)]
pub struct Ends {
    pub place: usize,
}

// Up to where so many bytes are there, whatever they are: all of them, or those up to the end.
fn any_front(seal: &[u8], at: usize, size: usize) -> usize
    requires { (at ≤ length seal.now) × (at + size ≤ 4096) }
    ensures { result ≡ at + any_front size (drop at seal.now) }
{
    let n = seal.len();
    if n - at < size {
        return n;
    }
    at + size
}

// A signature whose size is told by the byte here: that byte can stand only where the signature has room behind it.
fn sized_front(seal: &[u8], at: usize, size: usize) -> usize
    requires { (at < length seal.now) × ((at ≤ 4096) × (size < 256)) }
    ensures { result ≡ at + pick (ltb (4096 - at) (1 + size)) 0 (1 + any_front size (drop (at + 1) seal.now)) }
{
    if 4096 - at < 1 + size {
        return at;
    }
    any_front(seal, at + 1, size)
}

// A signature's length behind 81, and the signature: 128 or 132 bytes.
fn long_front(seal: &[u8], at: usize) -> usize
    requires { at ≤ 4096 }
    ensures { result ≡ at + long_front (4096 - at) (drop at seal.now) }
{
    if seal.len() <= at {
        return at;
    }
    let size = wide(seal[at]);
    match size {
        128 | 132 => sized_front(seal, at, size),
        _ => at,
    }
}

// A signature's length and the signature: 56, 64 or 96 bytes, or those behind 81, which needs itself, a byte and 128.
fn signature_front(seal: &[u8], at: usize) -> usize
    requires { at ≤ 4096 }
    ensures { result ≡ at + signature_front (4096 - at) (drop at seal.now) }
{
    if seal.len() <= at {
        return at;
    }
    let size = wide(seal[at]);
    match size {
        56 | 64 | 96 => sized_front(seal, at, size),
        0x81 if 130 <= 4096 - at => long_front(seal, at + 1),
        _ => at,
    }
}

// The last byte of a feature's length that starts here, behind `width` others: it needs the value and a signature zone,
// which has 58 bytes at least, behind it.
fn last_front(at: usize, size: usize, width: usize) -> Result<Counted, Ends>
    requires { (at ≤ 4096) × ((size < 65536) × (width < 3)) }
    ensures { result ≡ counted_of at (last_of (4096 - at) size width) }
{
    if 4096 - at < 1 + width + size + 58 {
        return Err(Ends { place: at + width });
    }
    Ok(Counted {
        size,
        next: at + (1 + width),
    })
}

// A feature's length that starts here with 81: one byte more, of 128 and up.
fn after_one(seal: &[u8], at: usize) -> Result<Counted, Ends>
    requires { at ≤ 4096 }
    ensures { result ≡ counted_of at (after_one (4096 - at) (drop (at + 1) seal.now)) }
{
    let next = at + 1;
    if seal.len() <= next {
        return Err(Ends { place: next });
    }
    let size = wide(seal[next]);
    if size < 0x80 {
        return Err(Ends { place: next });
    }
    last_front(at, size, 1)
}

// The last byte of a length that starts here with 82 and `high`.
fn after_high(seal: &[u8], at: usize, high: usize) -> Result<Counted, Ends>
    requires { (at ≤ 4096) × (high < 256) }
    ensures { result ≡ counted_of at (after_high (4096 - at) high (drop (at + 2) seal.now)) }
{
    let next = at + 2;
    if seal.len() <= next {
        return Err(Ends { place: next });
    }
    let low = wide(seal[next]);
    last_front(at, high * 256 + low, 2)
}

// A feature's length that starts here with 82: two bytes more, the first not 0; the second may be 0, and the first needs
// room for what it tells then.
fn after_two(seal: &[u8], at: usize) -> Result<Counted, Ends>
    requires { at ≤ 4096 }
    ensures { result ≡ counted_of at (after_two (4096 - at) (drop (at + 1) seal.now)) }
{
    let next = at + 1;
    if seal.len() <= next {
        return Err(Ends { place: next });
    }
    let high = wide(seal[next]);
    if high == 0 {
        return Err(Ends { place: next });
    }
    if 4096 - at < 3 + high * 256 + 58 {
        return Err(Ends { place: next });
    }
    after_high(seal, at, high)
}

// A DER length that starts here with this byte: 81 and 82 need room for the least value that they can tell, and 83 and
// up never fit.
fn der_front(seal: &[u8], at: usize, first: usize) -> Result<Counted, Ends>
    requires { (at ≤ 4096) × (first < 256) }
    ensures { result ≡ counted_of at (length_front four (4096 - at) (first ∷ drop (at + 1) seal.now)) }
{
    match first {
        0..=0x7F => last_front(at, first, 0),
        0x81 if 188 <= 4096 - at => after_one(seal, at),
        0x82 if 317 <= 4096 - at => after_two(seal, at),
        _ => Err(Ends { place: at }),
    }
}

// A feature's length: one plain byte in version 3, a DER length in version 4.
fn length_front(seal: &[u8], at: usize, version: Version) -> Result<Counted, Ends>
    requires { at ≤ 4096 }
    ensures { result ≡ counted_of at (length_front version (4096 - at) (drop at seal.now)) }
{
    if seal.len() <= at {
        return Err(Ends { place: at });
    }
    let first = wide(seal[at]);
    match version {
        Version::Three => last_front(at, first, 0),
        Version::Four => der_front(seal, at, first),
    }
}

// Up to where features and signature can be completed, from a place on. A tag needs itself, a length and 58 bytes, and is
// none that was used: a bit for each is set where it was.
fn message_front(seal: &[u8], start: usize, version: Version) -> usize
    requires { (start ≤ length seal.now) × (start + 58 ≤ 4096) }
    ensures { result
        ≡ start
        + message_front version (suc (length (drop start seal.now))) [] (4096 - start) (drop start seal.now) }
{
    let n = seal.len();
    let mut marks = [0u64; 4];
    let mut at = start;
    while at < n {
        let tag = wide(seal[at]);
        if tag == 0xFF {
            return signature_front(seal, at + 1);
        }
        if 4096 - at < 60 {
            return at;
        }
        let word = tag >> 6;
        let bit = tag & 63;
        if (marks[word] >> bit) & 1 == 1 {
            return at;
        }
        match length_front(seal, at + 1, version) {
            Err(ends) => return ends.place,
            Ok(value) => {
                if n - value.next < value.size {
                    return n;
                }
                marks[word] |= 1 << bit;
                at = value.next + value.size;
            }
        }
    }
    at
}

// The same from any place: behind 4,038 no message begins, as a signature zone has no room there, nor does one past the end.
pub fn message_from(seal: &[u8], start: usize, version: Version) -> usize
    ensures { result ≡ message_from version start seal.now }
{
    if 4038 < start {
        return start;
    }
    if seal.len() < start {
        return start;
    }
    message_front(seal, start, version)
}
