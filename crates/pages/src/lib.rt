// Words that stand in a page of text, a line a code: two digits, a space, the words. Each table of words is one such page, and here is
// what finds the words of a code in it and puts them down.
#![tactic(auto)]

ghost use Rattle.std.specs.Prelude.{◌≡◌, ◌-◌, ◌<◌, drop, get_or};
ghost use Rattle.pages.specs.Page.{line_for};
ghost use Rattle.pages.specs.Calls.{AllOrNone};

use octets::{NoRoom, wide};

// Puts all of these words down from the start of `out` and answers how many bytes they are, or puts none where there is no room.
// `placed_of` of specs/Calls.antt gives the answer its number, no room that of whoever calls.
fn put_all(words: &[u8], out: &mut [u8]) -> Result<usize, NoRoom>
    ensures { AllOrNone words.now out.old result out.new }
{
    let size = words.len();
    if out.len() < size {
        return Err(NoRoom);
    }
    blocks::copy_lent(words, out);
    Ok(size)
}

// What a digit of a line stands for: 0 for a byte before `0`, and past the end.
fn digit(line: &[u8], i: usize) -> usize
    ensures value { result ≡ get_or line.now i 0 - 48 }
    ensures small { result < 256 }
{
    match line.get(i) {
        Some(b) => wide(b.saturating_sub(b'0')),
        None => 0,
    }
}

// What stands in a line after its code and the space.
fn words_after(line: &[u8]) -> &[u8]
    ensures { result.now ≡ drop 3 line.now }
{
    &line[line.len().min(3)..]
}

// The words of a code: what stands in its line of the page after the two digits and the space, or nothing where it has no line.
fn words_in(page: &[u8], code: usize) -> &[u8]
    ensures { result.now ≡ line_for code page.now }
{
    for line in page.split(|b| *b == b'\n') {
        if digit(line, 0) * 10 + digit(line, 1) == code {
            return words_after(line);
        }
    }
    &[]
}

// Puts the words of a code down from the start of `out`: all of them, or none where there is no room. A code with no line has none.
pub fn put_words_of(page: &[u8], code: usize, out: &mut [u8]) -> Result<usize, NoRoom>
    ensures { AllOrNone (line_for code page.now) out.old result out.new }
{
    put_all(words_in(page, code), out)
}
