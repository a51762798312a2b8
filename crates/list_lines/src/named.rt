// A line of a name, and after it a text, a number or a date.
ghost use Rattle.std.specs.Prelude.{take, drop};
ghost use Rattle.lines.specs.Line.{decimal_of};
ghost use Rattle.lines.specs.Written.{Puts};
ghost use Rattle.list_lines.specs.ListLine.{line_of, day};

use crate::date::put_date;
use dates::Date;
use lent::part;
use lines::Line;

// Puts down a line of a name and `size` bytes of `text` from a place on, as far as they are there.
pub fn put_named(line: &mut Line, name: &[u8], text: &[u8], from: usize, size: usize)
    ensures { Puts line.old (line_of name.now (take size (drop from text.now))) line.new }
{
    line.text(name);
    line.text(part(text, from, size));
    line.put(b'\n');
}

// Puts down a line of a name and a number.
pub fn put_counted(line: &mut Line, name: &[u8], n: usize)
    ensures { Puts line.old (line_of name.now (decimal_of n)) line.new }
{
    line.text(name);
    line.number(n);
    line.put(b'\n');
}

// Puts down a line of a name and a date.
pub(crate) fn put_day(line: &mut Line, name: &[u8], date: Date)
    ensures { Puts line.old (line_of name.now (day date)) line.new }
{
    line.text(name);
    put_date(line, date);
    line.put(b'\n');
}
