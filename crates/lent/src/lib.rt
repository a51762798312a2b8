// A part of lent bytes: that part itself, and no copy.
#![tactic(auto)]

ghost use Rattle.lent.specs.Part.{IsPart};

// `size` bytes of `bytes` from a place on, as far as they are there.
pub fn part(bytes: &[u8], from: usize, size: usize) -> &[u8]
    ensures { IsPart bytes.entry from size result }
{
    let n = bytes.len();
    if n < from {
        return &bytes[n..];
    }
    if n - from < size {
        return &bytes[from..];
    }
    let end = from + size;
    &bytes[from..end]
}
