// A case of a seal that is read and written back, and the line of its answer: whether the same bytes came back, and the writer's answer.
#![tactic(auto)]

ghost use Rattle.std.specs.Prelude.{◌≡◌, ◌≤◌, length, take};
ghost use Rattle.case_file.specs.Line.{Onward};
ghost use Rattle.case_file.specs.Tells.{Tells};

use case_file::{Line, at, put_call};
use face::FrFilled;
use fields::Header;
use reader::Reading;

// Whether a buffer begins with all of a seal.
fn begins(buffer: &[u8], seal: &[u8]) -> bool
    ensures { Tells result (take (length seal.now) buffer.now ≡ seal.now) }
{
    buffer.starts_with(seal)
}

// Puts down whether the writer made the seal again, and the line of its answer.
fn put_back(a: FrFilled, buffer: &[u8], seal: &[u8], out: &mut Line)
    ensures { Onward out.old out.new }
{
    let word: &[u8] = if begins(buffer, seal) {
        b"same "
    } else {
        b"other "
    };
    out.text(word);
    put_call(a.number, a.count, buffer, out);
}

// Writes with the seal as the values, and exactly its room of the buffer.
fn write(
    header: Header,
    text: &[u8],
    rows: &[usize],
    signature: &[u8],
    seal: &[u8],
    buffer: &mut [u8],
) -> FrFilled
    requires { length seal.now ≤ length buffer.old }
{
    let room = seal.len();
    answers_seals::written(writer::write(header, text, rows, seal, signature, &mut buffer[..room]))
}

// Writes a seal again, and puts down what came of it.
fn write_again(
    header: Header,
    text: &[u8],
    rows: &[usize],
    signature: &[u8],
    seal: &[u8],
    out: &mut Line,
)
    ensures { Onward out.old out.new }
{
    if case_file::MOST < seal.len() {
        out.text(b"too much room\n");
        return;
    }
    let mut buffer = case_file::filled();
    let a = write(header, text, rows, signature, seal, &mut buffer);
    put_back(a, &buffer, seal, out);
}

// Writes what was read of a good seal.
fn write_back(r: Reading, seal: &[u8], table: &[usize], text: &[u8], out: &mut Line)
    ensures { Onward out.old out.new }
{
    let header = r.header;
    let signature = r.signature;
    let size = case_file::reach(text, 4, header.length);
    let rows = case_file::whole_rows(table, r.count);
    let place = case_file::reach(seal, 0, signature.place);
    let rest = &seal[place..];
    let end = case_file::reach(rest, 0, signature.length);
    write_again(
        header,
        &text[..size],
        &table[..rows],
        &rest[..end],
        seal,
        out,
    );
}

// Reads a seal, and writes back what was read.
fn run_seal(seal: &[u8], out: &mut Line)
    ensures { Onward out.old out.new }
{
    let mut table = [0usize; rows::MOST];
    let mut text = [0u8; 259];
    let reading = reader::read(seal, &mut table, &mut text);
    if reading.number != 0 {
        out.text(b"not read\n");
        return;
    }
    write_back(reading, seal, &table, &text, out);
}

// Runs the case of a line, `b RUNS`; any other line is a comment and gives nothing.
pub fn run_line(line: &[u8], out: &mut Line)
    ensures { Onward out.old out.new }
{
    if at(line, 0) != b'b' {
        return;
    }
    let mut seal = [0u8; 8192];
    let size = case_file::runs(line, 1, &mut seal);
    run_seal(&seal[..size], out);
}
