// The buffer that a call of a case is to fill, and a line's words on what the call left in it.
ghost use Rattle.std.specs.Prelude.{◌≡◌, ◌++◌, ◌+◌, ◌*◌, ◌/◌, min, length, replicate};
ghost use Rattle.rows.specs.Rows.{width};
ghost use Rattle.lines.specs.Written.{Puts};
ghost use Rattle.case_file.specs.Line.{Counts, decimal_of};
ghost use Rattle.case_file.specs.Fill.{kept_words, written_words, filled_line, told_lines, placed};

use crate::line::{put_bytes, unchanged};
use lines::Line;
use rows::WIDTH;

// What every byte of the buffer is before the call.
pub const FILLING: u8 = 0x5A;

// The most bytes of room that a case gives; 16 guard bytes more stand past them.
pub const MOST: usize = 7000;

// Room for the largest case and the guard bytes past it, all filled.
pub fn filled() -> [u8; 7016]
    ensures { result ≡ replicate 7016 0x5A }
{
    [FILLING; 7016]
}

// The place so many bytes past another, or the end: what a call says of a buffer is looked at as far as there is any.
pub fn reach(buffer: &[u8], from: usize, size: usize) -> usize
    ensures counts { Counts result buffer.now }
    ensures value { result ≡ min (from + size) (length buffer.now) }
{
    let end = buffer.len();
    if end <= from {
        return end;
    }
    if end - from <= size {
        return end;
    }
    from + size
}

// How many numbers of a table so many rows take, or all its whole rows.
pub fn whole_rows(table: &[usize], count: usize) -> usize
    ensures counts { Counts result table.now }
    ensures value { result ≡ width * min count (length table.now / width) }
{
    let most = table.len() / WIDTH;
    if most <= count {
        return WIDTH * most;
    }
    WIDTH * count
}

// Puts down whether the call left every byte past the count alone, the guard bytes too.
fn put_kept(buffer: &[u8], count: usize, line: &mut Line)
    ensures { Puts line.old (kept_words buffer.now count) line.new }
{
    if unchanged(buffer, count, FILLING) {
        line.text(b" kept");
    } else {
        line.text(b" changed");
    }
}

// Puts down the bytes that the call wrote, if there are any.
fn put_written(buffer: &[u8], count: usize, line: &mut Line)
    ensures { Puts line.old (written_words buffer.now count) line.new }
{
    if count == 0 {
        return;
    }
    if buffer.len() < count {
        line.text(b" more than the buffer has");
        return;
    }
    line.put(b' ');
    put_bytes(line, &buffer[..count]);
}

// Puts down the rest of a case's line: the count that the call answered, and what the whole buffer holds after it.
pub fn put_filled(buffer: &[u8], count: usize, line: &mut Line)
    ensures { Puts line.old (filled_line buffer.now count) line.new }
{
    line.text(b" wrote ");
    line.number(count);
    put_kept(buffer, count, line);
    put_written(buffer, count, line);
    line.put(b'\n');
}

// Puts down the line of a call that fills a buffer and answers no place.
pub fn put_call(answered: usize, count: usize, buffer: &[u8], line: &mut Line)
    ensures { Puts line.old (decimal_of answered ++ filled_line buffer.now count) line.new }
{
    line.number(answered);
    put_filled(buffer, count, line);
}

// Puts down the text that a call wrote, the count that it answered, and whether it left every byte past that alone.
pub fn put_told(text: &[u8], count: usize, line: &mut Line)
    ensures { Puts line.old (told_lines text.now count) line.new }
{
    line.text(&text[..reach(text, 0, count)]);
    line.number(count);
    put_kept(text, count, line);
    line.put(b'\n');
}

// Puts down the number that was answered, and its place.
pub fn put_place(number: usize, place: usize, line: &mut Line)
    ensures { Puts line.old (placed number place) line.new }
{
    line.number(number);
    line.text(b" at ");
    line.number(place);
}
