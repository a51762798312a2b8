// The program that tells why a seal is refused (document 02, Ticket 11): a seal on standard input, the text on standard output.
// What it prints is what `why_lines::tell` promises.
#![tactic(auto)]

use why_lines::{READ, ROOM};

// What the program is called where it says what is wrong.
const NAME: &str = "fenderrope-why";

// Reads, tells and writes; it takes no arguments.
fn main(rt: HostRuntime) {
    let mut seal = [0u8; READ];
    let Ok(size) = input::take(&rt, NAME, &mut seal) else {
        return;
    };
    let mut out = [0u8; ROOM];
    let count = why_lines::tell(&seal[..size], &mut out);
    let _ = input::give(&rt, NAME, &out[..count]);
}
