// The listing program (document 01, "A whole seal and its listing"): a seal on standard input, its listing on standard output.
// What it prints is what `listing::list` promises.
#![tactic(auto)]

use listing::{READ, ROOM};

// What the program is called where it says what is wrong.
const NAME: &str = "fenderrope-list";

// Reads, lists and writes; it takes no arguments.
fn main(rt: HostRuntime) {
    let mut seal = [0u8; READ];
    let Ok(size) = input::take(&rt, NAME, &mut seal) else {
        return;
    };
    let mut out = [0u8; ROOM];
    let count = listing::list(&seal[..size], &mut out);
    let _ = input::give(&rt, NAME, &out[..count]);
}
