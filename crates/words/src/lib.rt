// The words of the numbers that a call answers (document 01, "The numbers a call answers"), for programs that tell them to people.
#![tactic(auto)]

ghost use Rattle.std.specs.Prelude.{◌≡◌, length};
ghost use Rattle.format.specs.Answers.{told, filled};
ghost use Rattle.words.specs.Calls.{saying, told_of, Longest};

use octets::NoRoom;

// The length of the longest words: a buffer of so many bytes has room for any.
pub const LONGEST: usize = 92;

// The table of the words, a line a number: two digits, a space, the words. `page_of` of `pages` makes it of the table of specs/Words.antt.
const PAGE: [u8; 1416] = *b"\
00 done\n\
01 seal longer than 4,096\n\
02 the input ends before an item is whole\n\
03 first byte is not DC\n\
04 version byte is not 02 or 03\n\
05 country, signer, L or reference wrongly coded or with a wrong character\n\
06 no such date\n\
07 definition reference or category is 0 or 255\n\
08 DER length malformed or not shortest\n\
09 tag already used\n\
10 signature length is not 56, 64, 96, 128 or 132\n\
11 bytes after the signature\n\
12 seal good, but the lent table has under 4 numbers a feature, or the text room is under 4 + L\n\
20 writer: version not 3 or 4\n\
21 writer: country, signer or reference\n\
22 writer: date\n\
23 writer: definition reference or category\n\
24 writer: table not in fours, tag over 254 or used twice, or a value outside the values buffer\n\
25 writer: value over 255 bytes in version 3\n\
26 writer: signature length\n\
27 writer: seal would pass 4,096\n\
28 writer: no room for the whole seal\n\
40 C40 bytes odd in number\n\
41 C40 pair value of 0 or over 64,000 that does not begin with FE\n\
42 no room for the text\n\
43 character that is not in the chart\n\
44 no room for the C40 bytes\n\
45 text or bytes over the size\n\
46 C40 shift value where none may stand\n\
47 C40 FE misplaced or followed by a code outside the chart\n\
50 feature in neither seal\n\
51 no further feature\n\
60 n is not one of the five\n\
61 raw length is not 2n\n\
62 not strict DER, with bytes left over, negative, or too big for n\n\
63 no room\n\
65 not one whole DER INTEGER of 1 to 8 bytes\n\
";

// Puts the words of a number down from the start of `out`: all of them, or none where there is no room. Another number has none.
// `told_of` of specs/Calls.antt gives the answer its number: 0 with the count of bytes, or 63.
pub fn put_words(number: usize, out: &mut [u8]) -> Result<usize, NoRoom>
    ensures answer { told_of result ≡ told (saying number (length out.old)) }
    ensures buffer { out.new ≡ filled (saying number (length out.old)) out.old }
    ensures room { Longest LONGEST }
{
    pages::put_words_of(&PAGE, number, out)
}
