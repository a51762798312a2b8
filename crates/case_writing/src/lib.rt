// A case of the writer, and the line of its answer: the number, the count, whether every byte past the count was kept,
// and the bytes written.
#![tactic(auto)]

ghost use Rattle.std.specs.Prelude.{◌≤◌, length};
ghost use Rattle.case_file.specs.Line.{Onward, Counts};

use case_file::{Line, after, any_number, at, put_call};
use dates::Date;
use face::FrFilled;
use fields::Header;

// The numbers that stand at a place, each after a space, put at the start of the table as far as it has room, and how many were put there.
fn numbers(line: &[u8], from: usize, table: &mut [usize]) -> usize
    ensures { Counts result table.new }
{
    let mut i = from;
    for count in 0..table.len() {
        if line.len() <= i {
            return count;
        }
        let word = any_number(line, i + 1);
        // no digit: the part ends here
        if word.next == i + 1 {
            return count;
        }
        table[count] = word.value;
        i = word.next;
    }
    table.len()
}

// A header of the numbers of a line: version, L, both dates, definition reference, category.
fn header_of(n: &[usize; 10], country: [u8; 3]) -> Header {
    Header {
        version: n[0],
        country,
        length: n[1],
        issued: Date {
            month: n[2],
            day: n[3],
            year: n[4],
        },
        signed: Date {
            month: n[5],
            day: n[6],
            year: n[7],
        },
        definition: n[8],
        category: n[9],
    }
}

// Writes with the first `room` bytes of the buffer lent to the writer.
fn write(
    header: Header,
    text: &[u8],
    rows: &[usize],
    values: &[u8],
    signature: &[u8],
    room: usize,
    buffer: &mut [u8],
) -> FrFilled
    requires { room ≤ length buffer.old }
{
    answers_seals::written(writer::write(
        header,
        text,
        rows,
        values,
        signature,
        &mut buffer[..room],
    ))
}

// Runs one case.
fn run_case(
    header: Header,
    text: &[u8],
    rows: &[usize],
    values: &[u8],
    signature: &[u8],
    room: usize,
    out: &mut Line,
)
    ensures { Onward out.old out.new }
{
    if case_file::MOST < room {
        out.text(b"too much room\n");
        return;
    }
    let mut buffer = case_file::filled();
    let a = write(header, text, rows, values, signature, room, &mut buffer);
    put_call(a.number, a.count, &buffer, out);
}

// `w ROOM h NUMBERS c RUNS t RUNS r NUMBERS v RUNS g RUNS`: the header's numbers, its country, the text, the rows, the
// values and the signature.
fn run_given(line: &[u8], out: &mut Line)
    ensures { Onward out.old out.new }
{
    let mut fields = [0usize; 10];
    numbers(line, after(line, b'h'), &mut fields);
    let mut country = [0u8; 3];
    case_file::runs(line, after(line, b'c'), &mut country);
    let mut text = [0u8; 400];
    let size = case_file::runs(line, after(line, b't'), &mut text);
    let mut rows = [0usize; rows::MOST + 35];
    let count = numbers(line, after(line, b'r'), &mut rows);
    let mut values = [0u8; 8192];
    let end = case_file::runs(line, after(line, b'v'), &mut values);
    let mut signature = [0u8; 8192];
    let length = case_file::runs(line, after(line, b'g'), &mut signature);
    let header = header_of(&fields, country);
    let room = case_file::number(line, 2);
    run_case(
        header,
        &text[..size],
        &rows[..count],
        &values[..end],
        &signature[..length],
        room.value,
        out,
    );
}

// Runs the case of a line, of the letter `w`; any other line is a comment and gives nothing.
pub fn run_line(line: &[u8], out: &mut Line)
    ensures { Onward out.old out.new }
{
    if at(line, 0) == b'w' {
        run_given(line, out);
    }
}
