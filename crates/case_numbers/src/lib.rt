// A case of DER lengths, INTEGERs or dates, and the line of its answer: what was answered, and on `j` what was written.
#![tactic(auto)]

ghost use Rattle.std.specs.Prelude.{◌≤◌, length};
ghost use Rattle.case_file.specs.Line.{Onward};

use case_file::{Line, put_call};
use der::{Fault, Length};
use face::FrInteger;

// Puts down a length that was read, and the width of its form, or why there is none.
fn put_length(length: Result<Length, Fault>, out: &mut Line)
    ensures { Onward out.old out.new }
{
    match length {
        Ok(length) => put_size(length, out),
        Err(fault) => put_fault(fault, out),
    }
}

// Puts down why there is no length.
fn put_fault(fault: Fault, out: &mut Line)
    ensures { Onward out.old out.new }
{
    match fault {
        Fault::NoByte | Fault::Cut => out.text(b"cut\n"),
        Fault::FirstByte | Fault::NotShortest => out.text(b"malformed\n"),
    }
}

// The line of a good length.
fn put_size(length: Length, out: &mut Line)
    ensures { Onward out.old out.new }
{
    out.text(b"length ");
    out.number(length.size);
    out.text(b" width ");
    out.number(length.width);
    out.put(b'\n');
}

// Puts down an INTEGER that was read.
fn put_reading(reading: FrInteger, out: &mut Line)
    ensures { Onward out.old out.new }
{
    out.number(reading.number);
    out.put(b' ');
    put_signed(reading.value, out);
    out.put(b'\n');
}

// Puts down a number with its sign.
fn put_signed(value: i64, out: &mut Line)
    ensures { Onward out.old out.new }
{
    if value < 0 {
        out.put(b'-');
    }
    out.number(value.unsigned_abs() as usize);
}

// A number, but at most the largest that is signed.
fn at_most(number: usize) -> usize
    ensures { result ≤ 9223372036854775807 }
{
    number.min(9223372036854775807)
}

// The negative number of a magnitude, taken from one less, since the least number's does not fit.
fn negative(magnitude: usize) -> i64 {
    if magnitude == 0 {
        return 0;
    }
    let below = at_most(magnitude - 1);
    -(below as i64) - 1
}

// The number at a place of a line, which may have a `-` before it.
fn signed(line: &[u8], from: usize) -> i64 {
    if from < line.len() && line[from] == b'-' {
        return negative(case_file::number(line, from + 1).value);
    }
    at_most(case_file::number(line, from).value) as i64
}

// `l RUNS`: reading a length.
fn run_length(line: &[u8], out: &mut Line)
    ensures { Onward out.old out.new }
{
    let mut input = [0u8; 4096];
    let size = case_file::runs(line, 1, &mut input);
    put_length(der::read_length(&input[..size]), out);
}

// `i RUNS`: reading an INTEGER.
fn run_integer(line: &[u8], out: &mut Line)
    ensures { Onward out.old out.new }
{
    let mut input = [0u8; 4096];
    let size = case_file::runs(line, 1, &mut input);
    put_reading(
        answers_numbers::integer_read(integers_read::read(&input[..size])),
        out,
    );
}

// Writes an INTEGER with the first `room` bytes of the buffer lent.
fn run_write(value: i64, room: usize, buffer: &mut [u8], out: &mut Line)
    requires { room ≤ length buffer.old }
    ensures { Onward out.old out.new }
{
    let a = answers_numbers::integer_written(integers_write::write(value, &mut buffer[..room]));
    put_call(a.number, a.count, buffer, out);
}

// `j ROOM VALUE`: writing an INTEGER.
fn run_value(line: &[u8], out: &mut Line)
    ensures { Onward out.old out.new }
{
    let number = case_file::number(line, 2);
    let room = number.value;
    if case_file::MOST < room {
        out.text(b"too much room\n");
        return;
    }
    let value = signed(line, number.next + 1);
    let mut buffer = case_file::filled();
    run_write(value, room, &mut buffer, out);
}

// Runs the case of a line, by its letter; any other is a case of dates, or a comment.
pub fn run_line(line: &[u8], out: &mut Line)
    ensures { Onward out.old out.new }
{
    match case_file::at(line, 0) {
        b'l' => run_length(line, out),
        b'i' => run_integer(line, out),
        b'j' => run_value(line, out),
        _ => case_dates::run_line(line, out),
    }
}
