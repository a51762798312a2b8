// The program that walks over the features of a seal (document 02, Ticket 2): a seal on standard input, the text on standard output.
// What it prints is what `walk_lines::tell` promises.
#![tactic(auto)]

use walk_lines::{READ, ROOM};

// What the program is called where it says what is wrong.
const NAME: &str = "fenderrope-features";

// Reads, tells and writes; it takes no arguments.
fn main(rt: HostRuntime) {
    let mut seal = [0u8; READ];
    let Ok(size) = input::take(&rt, NAME, &mut seal) else {
        return;
    };
    let mut out = [0u8; ROOM];
    let count = walk_lines::tell(&seal[..size], &mut out);
    let _ = input::give(&rt, NAME, &out[..count]);
}
