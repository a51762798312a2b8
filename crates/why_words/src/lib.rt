// The names of the items of a seal and the words of the rules that they keep (document 02, Ticket 11), for programs that tell people why a
// seal is refused.
#![tactic(auto)]

ghost use Rattle.std.specs.Prelude.{◌≡◌, length};
ghost use Rattle.format.specs.Answers.{told, filled};
ghost use Rattle.why_words.specs.Calls.{naming, wording, told_of, LongestName, LongestWords};

use octets::NoRoom;

// The length of the longest name of an item: a buffer of so many bytes has room for any.
pub const ITEM_LONGEST: usize = 20;

// The length of the longest words of a rule, likewise.
pub const RULE_LONGEST: usize = 61;

// The names of the items, a line a code: two digits, a space, the name. `page_of` of `pages` makes it of the table of specs/Names.antt.
const ITEMS: [u8; 220] = *b"\
01 seal\n\
02 mark\n\
03 version\n\
04 country\n\
05 signer and reference\n\
06 signer and length\n\
07 reference\n\
08 issue date\n\
09 signature date\n\
10 definition\n\
11 category\n\
12 tag\n\
13 length\n\
14 value\n\
15 signature length\n\
16 signature\n\
17 end\n\
";

// The words of the rules, likewise.
const RULES: [u8; 714] = *b"\
01 a seal has at most 4,096 bytes\n\
02 all its bytes are there\n\
03 a seal begins with DC\n\
04 the version is 02 or 03\n\
05 every two bytes stand for characters, as many as the item has\n\
06 the date is a real day\n\
07 the number is 1 to 254\n\
08 the length begins with 00 to 7F or with 81 to 84\n\
09 a tag is used once only\n\
10 the signature is 56, 64, 96, 128 or 132 bytes long\n\
11 nothing follows the signature\n\
12 the country is a letter, then letters, then < to fill\n\
13 the signer is two letters, then two letters or digits\n\
14 the reference is letters and digits\n\
15 the reference's length is two of 0 to 9 and A to F\n\
16 the reference's length is not 00\n\
17 all bytes of the length are there\n\
18 the length is in its shortest form\n\
";

// Puts the name of an item down from the start of `out`: all of it, or nothing where there is no room. Another code has none.
// `told_of` of specs/Calls.antt gives the answer its number: 0 with the count of bytes, or 42.
pub fn put_item_name(item: usize, out: &mut [u8]) -> Result<usize, NoRoom>
    ensures answer { told_of result ≡ told (naming item (length out.old)) }
    ensures buffer { out.new ≡ filled (naming item (length out.old)) out.old }
    ensures room { LongestName ITEM_LONGEST }
{
    pages::put_words_of(&ITEMS, item, out)
}

// Puts the words of a rule down from the start of `out`, likewise.
pub fn put_rule_words(rule: usize, out: &mut [u8]) -> Result<usize, NoRoom>
    ensures answer { told_of result ≡ told (wording rule (length out.old)) }
    ensures buffer { out.new ≡ filled (wording rule (length out.old)) out.old }
    ensures room { LongestWords RULE_LONGEST }
{
    pages::put_words_of(&RULES, rule, out)
}
