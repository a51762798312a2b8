// Text that is being written in a lent buffer.
ghost use Rattle.std.specs.Prelude.{◌≡◌, [], ◌∷◌};
ghost use Rattle.lines.specs.Line.{Put, decimal_of};
ghost use Rattle.lines.specs.Written.{Puts, Opens};

// The lent buffer and the place where the next byte goes: the two travel together, and each byte put down moves the place on. What does
// not fit is left out.
#[derive(Drop)]
pub struct Line<'a> {
    out: &'a mut [u8],
    at: usize,
}

// Puts down a byte at a place of a buffer, if there is room for it, and gives the next place.
fn put_byte(out: &mut [u8], at: usize, b: u8) -> usize
    ensures { Put out.old at (b ∷ []) out.new result }
{
    if at < out.len() {
        out[at] = b;
        return at + 1;
    }
    at
}

// Puts down all bytes of `text` from a place on, as far as there is room, and gives the next place. The place is a local: behind a
// reference it would be stored and loaded again at each byte, which took up to 1.5 times the time.
fn put_text(out: &mut [u8], at: usize, text: &[u8]) -> usize
    ensures { Put out.old at text.now out.new result }
{
    let mut next = at;
    for b in text {
        next = put_byte(out, next, *b);
    }
    next
}

// Puts down a number in decimal from a place on, all digits but the last, then the last, and gives the next place.
fn put_number(out: &mut [u8], at: usize, n: usize) -> usize
    ensures { Put out.old at (decimal_of n) out.new result }
{
    if n < 10 {
        return put_byte(out, at, b'0' + n as u8);
    }
    let most = octets::tens(n);
    let next = put_number(out, at, most);
    put_byte(out, next, b'0' + (n - most * 10) as u8)
}

impl<'a> Line<'a> {
    // A line that is written from a place of the buffer on.
    pub fn new(out: &'a mut [u8], at: usize) -> Line<'a>
        ensures { Opens out.entry at result }
    {
        Line { out, at }
    }

    // The place where the next byte goes.
    pub fn at(&self) -> usize
        ensures { result ≡ self.now.at }
    {
        self.at
    }

    // Puts down a byte, if there is room for it.
    pub fn put(&mut self, b: u8)
        ensures { Puts self.old (b ∷ []) self.new }
    {
        self.at = put_byte(self.out, self.at, b);
    }

    // Puts down all bytes of `text`, as far as there is room.
    pub fn text(&mut self, text: &[u8])
        ensures { Puts self.old text.now self.new }
    {
        self.at = put_text(self.out, self.at, text);
    }

    // Puts down a number in decimal.
    pub fn number(&mut self, n: usize)
        ensures { Puts self.old (decimal_of n) self.new }
    {
        self.at = put_number(self.out, self.at, n);
    }
}
