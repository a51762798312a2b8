// The line of an answer that shows a value: numbers, and the value's bytes.
ghost use Rattle.case_file.specs.Line.{Onward};

use case_file::{Line, put_bytes, put_words};

// Puts down the bytes of a value after a space; an empty one gives nothing.
fn put_value(value: &[u8], out: &mut Line)
    ensures { Onward out.old out.new }
{
    if value.len() == 0 {
        return;
    }
    out.put(b' ');
    put_bytes(out, value);
}

// Puts down the line: the number that was answered, the fields after it, and the value.
pub(crate) fn put_line(number: usize, fields: &[usize], value: &[u8], out: &mut Line)
    ensures { Onward out.old out.new }
{
    out.number(number);
    put_words(out, fields);
    put_value(value, out);
    out.put(b'\n');
}
