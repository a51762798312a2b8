// What is put down on a line of an answer.
ghost use Rattle.std.specs.Prelude.{◌≡◌, [], ◌∷◌, ◌++◌, ◌%◌, drop};
ghost use Rattle.lines.specs.Written.{Puts};
ghost use Rattle.case_file.specs.Line.{hex_of, decimal_of, words_of, weighted, shown};
ghost use Rattle.case_file.specs.Fill.{all_are};

use lines::Line;
use octets::wide;

// Puts down numbers in decimal, with a space before each.
pub fn put_words(line: &mut Line, numbers: &[usize])
    ensures { Puts line.old (words_of numbers.now) line.new }
{
    for number in numbers {
        line.put(b' ');
        line.number(*number);
    }
}

// Puts down a label, and numbers after it.
pub fn put_part(line: &mut Line, label: &[u8], numbers: &[usize])
    ensures { Puts line.old (label.now ++ words_of numbers.now) line.new }
{
    line.text(label);
    put_words(line, numbers);
}

// Puts down the line of a call that fills no buffer: the number that it answered, and the values.
pub fn put_answer(line: &mut Line, number: usize, values: &[usize])
    ensures { Puts line.old (decimal_of number ++ (words_of values.now ++ (10 ∷ []))) line.new }
{
    line.number(number);
    put_words(line, values);
    line.put(b'\n');
}

// Puts down bytes in hex, two digits in upper case for each.
pub fn put_hex(line: &mut Line, bytes: &[u8])
    ensures { Puts line.old (hex_of bytes.now) line.new }
{
    for byte in bytes {
        let b = wide(*byte);
        line.put(octets::hex_digit(b >> 4));
        line.put(octets::hex_digit(b));
    }
}

// The sum of all bytes, each times its place counted from 1, modulo 65,521: the sum of the sums of all tails, taken from the end.
pub fn checksum(bytes: &[u8]) -> usize
    ensures { result ≡ weighted 1 bytes.now % 65521 }
{
    let mut tail: usize = 0;
    let mut sum: usize = 0;
    for byte in bytes.iter().rev() {
        tail = (tail + wide(*byte)) % 65521;
        sum = (sum + tail) % 65521;
    }
    sum
}

// Puts down bytes in hex: all of them up to 24, else the first 8, the last 8 and the checksum of all.
pub fn put_bytes(line: &mut Line, bytes: &[u8])
    ensures { Puts line.old (shown bytes.now) line.new }
{
    let n = bytes.len();
    if n <= 24 {
        put_hex(line, bytes);
        return;
    }
    put_hex(line, &bytes[..8]);
    line.text(b"..");
    put_hex(line, &bytes[n - 8..]);
    line.text(b" sum ");
    line.number(checksum(bytes));
}

// Whether every byte from a place on is the byte that the buffer was filled with.
pub fn unchanged(buffer: &[u8], from: usize, filling: u8) -> bool
    ensures { result ≡ all_are filling (drop from buffer.now) }
{
    buffer.iter().skip(from).all(|b| *b == filling)
}
