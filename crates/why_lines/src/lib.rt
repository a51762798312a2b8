// The text that tells why a seal is refused (document 02, Ticket 11) and how far it is good (Ticket 12), put into a lent buffer.
#![tactic(auto)]

ghost use Rattle.std.specs.Prelude.{◌≡◌, ◌≤◌, length};
ghost use Rattle.format.specs.Answers.{done, filled};
ghost use Rattle.lines.specs.Line.{ascii};
ghost use Rattle.lines.specs.Written.{Puts};
ghost use Rattle.list_lines.specs.ListLine.{line_of};
ghost use Rattle.hex_bytes.specs.Shown.{shown};
ghost use Rattle.why_words.specs.Names.{name_of, words_of};
ghost use Rattle.why_lines.specs.Lines.{reason_lines, ending_of, front_line, text_of, why_text, Enough};

use hex_bytes::put_shown;
use lent::part;
use lines::Line;
use list_lines::{put_counted, put_named};
use why::Reason;
use why_words::{ITEM_LONGEST, RULE_LONGEST};

// How much of its input a program must read: one byte more than the longest seal, so that one that is too long is known.
pub const READ: usize = 4097;

// Room for every text (proofs/Room.antt).
pub const ROOM: usize = 256;

// The line of the item.
fn put_item(line: &mut Line, item: usize)
    ensures { Puts line.old (line_of (ascii "item ") (name_of item)) line.new }
{
    let mut name = [0u8; ITEM_LONGEST];
    let told = why_words::put_item_name(item, &mut name);
    put_named(line, b"item ", &name, 0, told.unwrap_or(0));
}

// The line of the rule.
fn put_rule(line: &mut Line, rule: usize)
    ensures { Puts line.old (line_of (ascii "rule ") (words_of rule)) line.new }
{
    let mut words = [0u8; RULE_LONGEST];
    let told = why_words::put_rule_words(rule, &mut words);
    put_named(line, b"rule ", &words, 0, told.unwrap_or(0));
}

// The line of the bytes judged.
fn put_judged(line: &mut Line, judged: &[u8])
    ensures { Puts line.old (line_of (ascii "bytes") (shown judged.now)) line.new }
{
    line.text(b"bytes");
    put_shown(line, judged);
    line.put(b'\n');
}

// The five lines of a refusal.
fn put_reason(line: &mut Line, reason: Reason, judged: &[u8])
    ensures { Puts line.old (reason_lines reason judged.now) line.new }
{
    put_counted(line, b"number ", reason.number);
    put_item(line, reason.item);
    put_counted(line, b"place ", reason.place);
    put_judged(line, judged);
    put_rule(line, reason.rule);
}

// What stands behind the front part: the byte that no seal has there, or the input's end.
fn put_ending(line: &mut Line, seal: &[u8], front: usize)
    ensures { Puts line.old (ending_of seal.now front) line.new }
{
    if front < seal.len() {
        line.text(b", no seal has");
        put_shown(line, part(seal, front, 1));
        line.text(b" there");
        return;
    }
    line.text(b", the input ends too early");
}

// The line of the front part.
fn put_front(line: &mut Line, seal: &[u8], front: usize)
    ensures { Puts line.old (front_line seal.now front) line.new }
{
    line.text(b"good up to ");
    line.number(front);
    put_ending(line, seal, front);
    line.put(b'\n');
}

// Puts down the text of a reason. `why::why` told it of this seal, whose front part is so long.
fn put_why(line: &mut Line, seal: &[u8], reason: Reason, front: usize)
    ensures { Puts line.old (text_of seal.now reason front) line.new }
{
    if reason.number == 0 {
        line.text(b"accepted\n");
        return;
    }
    let judged = reason.judged;
    put_reason(line, reason, part(seal, judged.place, judged.length));
    put_front(line, seal, front);
}

// Puts the text for `seal` at the start of `out` and gives the count of its bytes; past it `out` stays.
pub fn tell(seal: &[u8], out: &mut [u8; ROOM]) -> usize
    ensures count { result ≡ length (why_text seal.now) }
    ensures text { out.new ≡ filled (done (why_text seal.now)) out.old }
    ensures room { length (why_text seal.now) ≤ ROOM }
    ensures enough { Enough READ }
{
    let reason = why::why(seal);
    let mut line = Line::new(out, 0);
    put_why(&mut line, seal, reason, front_seal::front(seal));
    line.at()
}
