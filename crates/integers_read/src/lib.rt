// A DER INTEGER of the signed 64-bit range read (document 01, Signatures; X.690, 8.3).
#![tactic(auto)]

ghost use Rattle.std.specs.Prelude.{◌≡◌};
ghost use Rattle.integers.specs.Calls.{reading, reading_of};

mod content;

use integers::NotOne;

// Reads one whole INTEGER, 1 to 8 bytes of content.
pub fn read(s: &[u8]) -> Result<i64, NotOne>
    ensures { reading_of result ≡ reading s.now }
{
    let n = s.len();
    // 02, one byte of length and 1 to 8 bytes of content: no longer form of a length is the shortest for so few
    if n < 3 {
        return Err(NotOne);
    }
    if 10 < n {
        return Err(NotOne);
    }
    if s[0] != 0x02 {
        return Err(NotOne);
    }
    if octets::wide(s[1]) != n - 2 {
        return Err(NotOne);
    }
    content::value_of(&s[2..])
}
