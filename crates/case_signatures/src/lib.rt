// A case of the signature forms or of the choice of hash, and the line of its answer: what was answered and written.
#![tactic(auto)]

ghost use Rattle.case_file.specs.Line.{Onward};

use case_file::{Line, put_answer, put_call};
use face::FrFilled;

// Runs a case, `N ROOM RUNS` after its letter: brings a signature of size N to its other form, with so much room of a buffer.
fn run_form<F: FnOnce(usize, &[u8], &mut [u8]) -> FrFilled>(call: F, line: &[u8], out: &mut Line)
    requires { F.IsAlwaysCallable call }
    ensures { Onward out.old out.new }
{
    let n = case_file::number(line, 2);
    let number = case_file::number(line, n.next + 1);
    let room = number.value;
    if case_file::MOST < room {
        out.text(b"too much room\n");
        return;
    }
    let mut input = [0u8; 4096];
    let size = case_file::runs(line, number.next, &mut input);
    let mut buffer = case_file::filled();
    let a = call(n.value, &input[..size], &mut buffer[..room]);
    put_call(a.number, a.count, &buffer, out);
}

// `h N`: the hash that goes with N, by its bits.
fn run_hash(line: &[u8], out: &mut Line)
    ensures { Onward out.old out.new }
{
    let n = case_file::number(line, 2);
    let hash = answers_signatures::hash_named(ecdsa::hash_for(n.value));
    put_answer(out, hash.number, &[hash.bits]);
}

// Runs the case of a line: `e` to DER, `f` to raw, `h` the hash; any other line is a comment and gives nothing.
pub fn run_line(line: &[u8], out: &mut Line)
    ensures { Onward out.old out.new }
{
    match case_file::at(line, 0) {
        b'e' => run_form(
            |n, raw, room| answers_signatures::der_written(ecdsa_to_der::to_der(n, raw, room)),
            line,
            out,
        ),
        b'f' => run_form(
            |n, der, room| answers_signatures::raw_written(ecdsa_to_raw::to_raw(n, der, room)),
            line,
            out,
        ),
        b'h' => run_hash(line, out),
        _ => {}
    }
}
