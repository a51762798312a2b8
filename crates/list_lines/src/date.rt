// A date, and numbers with zeros in front.
ghost use Rattle.lines.specs.Written.{Puts};
ghost use Rattle.list_lines.specs.ListLine.{zero_below, two, four, day};

use dates::Date;
use lines::Line;

// Puts down a zero if a number is below a limit.
fn put_zero(line: &mut Line, n: usize, limit: usize)
    ensures { Puts line.old (zero_below limit n) line.new }
{
    if n < limit {
        line.put(b'0');
    }
}

// Puts down a number with at least two digits.
fn put_two(line: &mut Line, n: usize)
    ensures { Puts line.old (two n) line.new }
{
    put_zero(line, n, 10);
    line.number(n);
}

// Puts down a number with at least four digits.
fn put_four(line: &mut Line, n: usize)
    ensures { Puts line.old (four n) line.new }
{
    put_zero(line, n, 1000);
    put_zero(line, n, 100);
    put_two(line, n);
}

// Puts down a date, YYYY-MM-DD.
pub(crate) fn put_date(line: &mut Line, date: Date)
    ensures { Puts line.old (day date) line.new }
{
    put_four(line, date.year);
    line.put(b'-');
    put_two(line, date.month);
    line.put(b'-');
    put_two(line, date.day);
}
