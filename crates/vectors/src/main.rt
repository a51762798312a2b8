// Runs the cases of data/ through the compiled calls, and writes a line for each: what was answered, and what stands in the lent memory.
#![tactic(auto)]

ghost use Rattle.std.specs.Prelude.{◌≤◌, length, IfOk};
ghost use Rattle.case_file.specs.Line.{Onward, Counts};

use case_file::Line;
use std::fmt::Write;
use std::fs::File;
use std::io::Print;
use std::{fmt, io};

// Runs every line of `cases`, and gives the length of what stands in `out` then.
fn run_all<F: Fn(&[u8], &mut Line)>(run: F, cases: &[u8], out: &mut [u8]) -> usize
    requires callable { F.IsAlwaysCallable run }
    requires onward { (line : _) (old : _) (r : _) (new : _) → F.post run line old r new → Onward old.now new.now }
    ensures { Counts result out.new }
{
    let mut lines = Line::new(out, 0);
    let mut from: usize = 0;
    // a `for` over `cases.split(..)` gets no proof where the function has a type parameter
    while from < cases.len() {
        let end = case_file::line_end(cases, from);
        run(&cases[from..end], &mut lines);
        from = end + 1;
    }
    lines.at()
}

// Writes what is wrong with a file, after its name.
fn tell(rt: &HostRuntime, path: &[u8], fault: &[u8]) {
    let _ = rt.write_all(path);
    let _ = rt.write_all(fault);
}

// The text of an error, as far as there is room.
#[derive(Drop)]
struct Words {
    bytes: [u8; 256],
    count: usize,
}

impl fmt::Write for Words {
    fn write_str(&mut self, text: &str) -> fmt::Result {
        for byte in text.as_bytes() {
            if self.count >= 256 {
                return Err(fmt::Error);
            }
            self.bytes[self.count] = *byte;
            self.count += 1;
        }
        Ok(())
    }
}

// How many bytes of an error's text are the system's words: those before the last bracket, which has the error's number.
fn before_number(text: &[u8]) -> usize
    ensures { result ≤ length text.now }
{
    match text.iter().rposition(|byte| *byte == b'(') {
        Some(bracket) => bracket.saturating_sub(1),
        None => text.len(),
    }
}

// Says on standard error why a file cannot be opened: its name, and the system's words.
fn fail(rt: &HostRuntime, path: &[u8], error: io::Error) {
    let mut words = Words {
        bytes: [0u8; 256],
        count: 0,
    };
    let _ = write!(words, "{error}");
    let text = &words.bytes[..words.count.min(256)];
    let stderr = rt.stderr();
    let _ = stderr.write_all(path);
    let _ = stderr.write_all(b": ");
    let _ = stderr.write_all(&text[..before_number(text)]);
    let _ = stderr.write_all(b"\n");
}

// Opens a file and reads it until the buffer is full, the file ends or a read fails, and gives how many bytes stand at the start of the
// buffer. A name that is no text is one that no file has.
fn read_file(rt: &HostRuntime, path: &[u8], buffer: &mut [u8]) -> io::Result<usize>
    ensures { IfOk result (λ n. Counts n buffer.new) }
{
    let Ok(name) = str::from_utf8(path) else {
        return Err(io::Error::from(io::ErrorKind::InvalidFilename));
    };
    let mut file = File::open(rt, name)?;
    Ok(input::fill(&mut file, buffer).unwrap_or_else(|unread| unread.count))
}

// Reads the cases of a file, runs them, and writes all lines in one go.
fn run_file<F: Fn(&[u8], &mut Line)>(rt: &HostRuntime, run: F, path: &[u8])
    requires callable { F.IsAlwaysCallable run }
    requires onward { (line : _) (old : _) (r : _) (new : _) → F.post run line old r new → Onward old.now new.now }
{
    let mut cases = [0u8; 65536];
    let size = match read_file(rt, path, &mut cases) {
        Ok(size) => size,
        Err(error) => {
            fail(rt, path, error);
            return;
        }
    };
    // a full buffer may have cut what belongs in it
    if size == 65536 {
        tell(rt, path, b": the file of cases is too long\n");
        return;
    }
    let mut out = [0u8; 65536];
    let n = run_all(run, &cases[..size], &mut out);
    if n == 65536 {
        tell(rt, path, b": the output is too long\n");
        return;
    }
    let _ = rt.write_all(&out[..n]);
}

// A line of the list of files: `= NAME` puts the name down, for the answers under it, and `LETTER PATH` runs a file.
fn run_listed(rt: &HostRuntime, line: &[u8]) {
    if line.len() < 3 {
        return;
    }
    let letter = line[0];
    if letter == b'=' {
        let _ = rt.write_all(&line[2..]);
        let _ = rt.write_all(b"\n");
        return;
    }
    let path = &line[2..];
    match letter {
        b'c' => run_file(rt, case_c40::run_line, path),
        b'n' => run_file(rt, case_numbers::run_line, path),
        b's' => run_file(rt, case_signatures::run_line, path),
        b'r' => run_file(rt, case_seals::run_line, path),
        b'w' => run_file(rt, case_writing::run_line, path),
        b'b' => run_file(rt, case_back::run_line, path),
        b'y' => run_file(rt, case_why::run_line, path),
        b'h' => run_file(rt, case_front::run_line, path),
        b'f' | b't' => run_file(rt, case_walk::run_line, path),
        _ => run_file(rt, case_listing::run_line, path),
    }
}

// Runs every file of the list, in its order.
fn run_list(rt: &HostRuntime, list: &[u8]) {
    for line in list.split(|byte| *byte == b'\n') {
        run_listed(rt, line);
    }
}

// The files of cases are those that `files` lists.
fn main(rt: HostRuntime) {
    let mut list = [0u8; 65536];
    let size = match read_file(&rt, b"files", &mut list) {
        Ok(size) => size,
        Err(error) => {
            fail(&rt, b"files", error);
            return;
        }
    };
    run_list(&rt, &list[..size]);
}
