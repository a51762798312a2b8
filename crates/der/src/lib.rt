// DER (document 01; X.690): lengths read and formed, and which first byte of an INTEGER is needless. `elements` reads elements.
#![tactic(auto)]

ghost use Rattle.std.specs.Prelude.{◌≡◌, ◌<◌, length, drop};
ghost use Rattle.der.specs.Length.{read_length, long_form, length_form, written, least as leastOf};
ghost use Rattle.der.specs.Content.{redundant};

use octets::{low, wide};

// Why there is no DER length at the head of a byte string.
#[derive(Clone, Copy, Debug, PartialEq, Eq)]
pub enum Fault {
    // there is no byte at all
    NoByte,
    // the first byte begins no length: 80, or 85 to FF
    FirstByte,
    // the bytes end before the form is whole
    Cut,
    // not the shortest form
    NotShortest,
}

// A DER length at the head of a byte string, and the width of its form.
#[derive(Clone, Copy, Debug, PartialEq, Eq)]
pub struct Length {
    pub size: usize,
    pub width: usize,
}

// A DER length as it is written: its bytes. One of 65,536 and more has none here.
#[derive(Clone, Copy, Debug, PartialEq, Eq)]
pub enum Form {
    // below 128
    One(u8),
    // 81 and a byte
    Two(u8, u8),
    // 82 and two bytes
    Three(u8, u8, u8),
}

// The body of an element at the head of a byte string: where it starts, and one past its end.
#[derive(Clone, Copy, Debug, PartialEq, Eq)]
pub struct Body {
    pub start: usize,
    pub end: usize,
}

// The least length that needs `k` bytes after the first, 1 to 4.
fn least(k: usize) -> usize
    requires { (0 < k) × (k < 5) }
    ensures { result ≡ leastOf k }
{
    match k {
        1 => 0x80,
        2 => 0x100,
        3 => 0x10000,
        _ => 0x1000000,
    }
}

// The DER length in `k` bytes after the first of `s`.
fn long_form(s: &[u8], k: usize) -> Result<Length, Fault>
    requires { (0 < length s.now) × ((0 < k) × (k < 5)) }
    ensures { result ≡ long_form k (drop 1 s.now) }
{
    if s.len() - 1 < k {
        return Err(Fault::Cut);
    }
    let end = k + 1;
    let value = octets::number(&s[1..end]);
    if value < least(k) {
        return Err(Fault::NotShortest);
    }
    Ok(Length {
        size: value,
        width: end,
    })
}

// The DER length at the head of `s`: the first byte is judged before its rest is looked for.
pub fn read_length(s: &[u8]) -> Result<Length, Fault>
    ensures { result ≡ read_length s.now }
{
    if s.len() == 0 {
        return Err(Fault::NoByte);
    }
    let x = wide(s[0]);
    if x < 0x80 {
        return Ok(Length { size: x, width: 1 });
    }
    if x == 0x80 {
        return Err(Fault::FirstByte);
    }
    if 0x85 <= x {
        return Err(Fault::FirstByte);
    }
    long_form(s, x - 0x80)
}

// The DER length of this size, byte by byte, below 65,536.
pub fn length_form(size: usize) -> Option<Form>
    ensures { result ≡ length_form size }
{
    if size < 0x80 {
        return Some(Form::One(size as u8));
    }
    if size < 0x100 {
        return Some(Form::Two(0x81, size as u8));
    }
    if size < 0x10000 {
        return Some(Form::Three(0x82, low(size >> 8), low(size)));
    }
    None
}

// How many bytes that is, and none for a longer one.
pub fn length_width(size: usize) -> usize
    ensures { result ≡ length (written size) }
{
    match length_form(size) {
        Some(Form::One(_)) => 1,
        Some(Form::Two(_, _)) => 2,
        Some(Form::Three(_, _, _)) => 3,
        None => 0,
    }
}

// Whether a first byte says no more than the second's top bit does.
pub fn is_redundant(x: u8, y: u8) -> bool
    ensures { result ≡ redundant x y }
{
    if y < 0x80 {
        return x == 0;
    }
    x == 0xFF
}
