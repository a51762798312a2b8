// Bytes as people are shown them, in hexadecimal: the first sixteen, and how many more there are. Each function writes on from where the
// line stands, as far as there is room.
#![tactic(auto)]

ghost use Rattle.lines.specs.Written.{Puts};
ghost use Rattle.hex_bytes.specs.Shown.{spaced, hex_bytes, and_more, shown};

use lines::Line;
use octets::{hex_digit, wide};

// How many bytes are shown at most.
const MOST: usize = 16;

// Puts down a space and the two digits of a byte.
fn put_byte(line: &mut Line, byte: u8)
    ensures { Puts line.old (spaced byte) line.new }
{
    let n = wide(byte);
    line.put(b' ');
    line.put(hex_digit(n >> 4));
    line.put(hex_digit(n));
}

// Puts down all of these bytes.
fn put_hex(line: &mut Line, bytes: &[u8])
    ensures { Puts line.old (hex_bytes bytes.now) line.new }
{
    for byte in bytes {
        put_byte(line, *byte);
    }
}

// Puts down how many more there are, if there are any.
fn put_more(line: &mut Line, more: usize)
    ensures { Puts line.old (and_more more) line.new }
{
    if more == 0 {
        return;
    }
    line.text(b" and ");
    line.number(more);
    line.text(b" more");
}

// Puts down what is shown of these bytes.
pub fn put_shown(line: &mut Line, bytes: &[u8])
    ensures { Puts line.old (shown bytes.now) line.new }
{
    let size = bytes.len();
    if size == 0 {
        line.text(b" none");
        return;
    }
    if size < MOST {
        put_hex(line, bytes);
        return;
    }
    put_hex(line, &bytes[..MOST]);
    put_more(line, size - MOST);
}
