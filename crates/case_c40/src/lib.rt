// A case of the C40 codec, and the line of its answer: `NUMBER at PLACE wrote COUNT kept`, and the bytes written.
#![tactic(auto)]

ghost use Rattle.case_file.specs.Line.{Onward};

use case_file::{Line, at};
use face::FrFilled;

// Puts down the line of a case: the answer, and what the whole buffer holds after the call.
fn report(a: FrFilled, buffer: &[u8], out: &mut Line)
    ensures { Onward out.old out.new }
{
    case_file::put_place(a.number, a.place, out);
    case_file::put_filled(buffer, a.count, out);
}

// Runs a case, `ROOM RUNS` after its letter: makes the call with the bytes of the runs and so much room of a buffer.
fn run_case<F: FnOnce(&[u8], &mut [u8]) -> FrFilled>(call: F, line: &[u8], out: &mut Line)
    requires { F.IsAlwaysCallable call }
    ensures { Onward out.old out.new }
{
    let number = case_file::number(line, 2);
    let room = number.value;
    if case_file::MOST < room {
        out.text(b"too much room\n");
        return;
    }
    let mut input = [0u8; 65536];
    let size = case_file::runs(line, number.next, &mut input);
    let mut buffer = case_file::filled();
    let a = call(&input[..size], &mut buffer[..room]);
    report(a, &buffer, out);
}

// Runs the case of a line: `r` reads, `w` writes; any other line is a comment and gives nothing.
pub fn run_line(line: &[u8], out: &mut Line)
    ensures { Onward out.old out.new }
{
    match at(line, 0) {
        b'r' => run_case(
            |input, room| answers_text::text_read(c40_read_long::read(input, room)),
            line,
            out,
        ),
        b'w' => run_case(
            |input, room| answers_text::text_written(c40_write_long::write(input, room)),
            line,
            out,
        ),
        _ => {}
    }
}
