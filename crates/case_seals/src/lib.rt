// A case of the reader, and the line of its answer: `NUMBER at PLACE`, the fields, what stands in the lent table and
// text, whether all else was kept, and whether `judge` agrees.
#![tactic(auto)]

ghost use Rattle.std.specs.Prelude.{◌≡◌, ◌≤◌, length, drop};
ghost use Rattle.case_file.specs.Fill.{all_are};
ghost use Rattle.case_file.specs.Line.{Onward};

use case_fields::{put_judged, put_reading};
use case_file::{Line, at, put_part};
use reader::Reading;

// What every number of the table and every byte of the text is before the call.
const NUMBER: usize = 0x5A5A5A5A;

const BYTE: u8 = 0x5A;

// The most numbers and bytes that a case lends, some more than the rows of every seal take; 16 guards more stand past them.
const MOST_NUMBERS: usize = rows::MOST + 35;

const MOST_TEXT: usize = 300;

// Whether every number of the table from a place on is what it was before the call. `case_file::unchanged` asks it of bytes: the clause
// is of numbers, which a type parameter is not.
fn unchanged(table: &[usize], from: usize) -> bool
    ensures { result ≡ all_are 0x5A5A5A5A (drop from table.now) }
{
    table.iter().skip(from).all(|number| *number == NUMBER)
}

// Puts down whether the call left the table and the text alone from these places on, the guards too.
fn put_kept(table: &[usize], rows: usize, text: &[u8], size: usize, out: &mut Line)
    ensures { Onward out.old out.new }
{
    if !unchanged(table, rows) {
        out.text(b" table changed");
    } else if !case_file::unchanged(text, size, BYTE) {
        out.text(b" text changed");
    } else {
        out.text(b" kept");
    }
}

// Puts down what the call wrote, the rows and the text, on any number but 0 nothing, and whether all else was kept.
fn put_written(r: Reading, table: &[usize], text: &[u8], out: &mut Line)
    ensures { Onward out.old out.new }
{
    if r.number != 0 {
        put_kept(table, 0, text, 0, out);
        return;
    }
    let header = r.header;
    let rows = case_file::whole_rows(table, r.count);
    let size = case_file::reach(text, 4, header.length);
    put_part(out, b" rows", &table[..rows]);
    out.text(b" text ");
    out.text(&text[..size]);
    put_kept(table, rows, text, size, out);
}

// Puts down the line of a case.
fn report(read: Reading, judged: Reading, table: &[usize], text: &[u8], out: &mut Line)
    ensures { Onward out.old out.new }
{
    put_reading(read, out);
    put_written(read, table, text, out);
    put_judged(read, judged, out);
}

// Runs one case with the first numbers of the table and the first bytes of the text lent to the reader.
fn run_case(
    seal: &[u8],
    numbers: usize,
    room: usize,
    table: &mut [usize],
    text: &mut [u8],
    out: &mut Line,
)
    requires numbers_in_bounds { numbers ≤ length table.old }
    requires room_in_bounds { room ≤ length text.old }
    ensures { Onward out.old out.new }
{
    let read = reader::read(seal, &mut table[..numbers], &mut text[..room]);
    report(read, reader::judge(seal), table, text, out);
}

// Runs the case of a line, `s NUMBERS ROOM RUNS`; any other line is a comment and gives nothing.
pub fn run_line(line: &[u8], out: &mut Line)
    ensures { Onward out.old out.new }
{
    if at(line, 0) != b's' {
        return;
    }
    let first = case_file::number(line, 2);
    let second = case_file::number(line, first.next + 1);
    let numbers = first.value;
    let room = second.value;
    if MOST_NUMBERS < numbers {
        out.text(b"too much room\n");
        return;
    }
    if MOST_TEXT < room {
        out.text(b"too much room\n");
        return;
    }
    let mut seal = [0u8; 8192];
    let size = case_file::runs(line, second.next, &mut seal);
    let mut table = [NUMBER; MOST_NUMBERS + 16];
    let mut text = [BYTE; 316];
    run_case(&seal[..size], numbers, room, &mut table, &mut text, out);
}
