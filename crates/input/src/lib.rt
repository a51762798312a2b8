// What the programs that take a seal share: what they read, what they write, and what they say where they cannot.
#![tactic(auto)]

ghost use Rattle.std.specs.Prelude.{◌≡◌, IfErr};
ghost use Rattle.input.specs.Input.{Given, Filled, Taken};

use std::env::{Env, FillError};
use std::io::{Print, Read};

// A read failed; so many bytes stand at the start of the buffer.
#[derive(Clone, Copy, Debug, PartialEq, Eq)]
pub struct Unread {
    pub count: usize,
}

// What keeps a program from its answer.
#[derive(Clone, Copy, Debug, PartialEq, Eq)]
pub enum Fault {
    // it was given arguments, and takes none
    Arguments,
    // standard input cannot be read
    Input,
    // standard output cannot be written
    Output,
}

// Reads until the buffer is full, the source ends or a read fails.
pub fn fill<R: Read>(source: &mut R, buffer: &mut [u8]) -> Result<usize, Unread>
    ensures { Filled result buffer.new }
{
    let mut count: usize = 0;
    // a turn goes on where the one before stopped, so no range counts the turns
    while count < buffer.len() {
        let Ok(more) = source.read(&mut buffer[count..]) else {
            return Err(Unread { count });
        };
        if more == 0 {
            return Ok(count);
        }
        count += more;
    }
    Ok(count)
}

// Reads standard input until it ends or the buffer is full.
pub fn read_input(rt: &HostRuntime, buffer: &mut [u8]) -> Result<usize, Unread>
    ensures { Given result buffer.new }
{
    fill(&mut rt.stdin(), buffer)
}

// Whether the program was given arguments: argument 0 is its name.
fn has_arguments(rt: &HostRuntime) -> bool {
    let mut first = [0u8; 1];
    !matches!(rt.arg(1, &mut first), Err(FillError::NotPresent))
}

// Says a fault on standard error, and gives it back. Where that cannot be written, there is nothing left to say it on.
fn say(rt: &HostRuntime, name: &str, fault: Fault) -> Fault
    ensures { result ≡ fault }
{
    let _ = match fault {
        Fault::Arguments => eprintln!(rt; "usage: {name} <seal"),
        Fault::Input => eprintln!(rt; "{name}: standard input cannot be read"),
        Fault::Output => eprintln!(rt; "{name}: standard output cannot be written"),
    };
    fault
}

// What a program of this name takes: standard input alone, and no arguments. Where there is none, it says why.
pub fn take(rt: &HostRuntime, name: &str, buffer: &mut [u8]) -> Result<usize, Fault>
    ensures { Taken result buffer.new }
{
    if has_arguments(rt) {
        return Err(say(rt, name, Fault::Arguments));
    }
    read_input(rt, buffer).map_err(|_| say(rt, name, Fault::Input))
}

// Writes what a program of this name gives to standard output. Where it cannot, it says so.
pub fn give(rt: &HostRuntime, name: &str, text: &[u8]) -> Result<(), Fault>
    ensures { IfErr result (λ fault. fault ≡ Fault.Output) }
{
    rt.write_all(text).map_err(|_| say(rt, name, Fault::Output))
}
