// Which bytes can be completed to a date (document 02, Tickets 3 and 12): three bytes are a day or not; of one or two,
// the first and the last number that they begin tell.
#![tactic(auto)]

ghost use Rattle.std.specs.Prelude.{◌≡◌, ◌+◌, ◌<◌, drop};
ghost use Rattle.front_days.specs.Days.{last_of, in_month, some_day, one_front, two_front, day_front};

use dates::{Date, NoSuchDate};
use octets::wide;

// The last number DDYYYY of a month's days: in year 9999, but the last 29 February is in 9996.
fn last_of(month: usize) -> usize
    ensures { result ≡ last_of month }
{
    match month {
        4 | 6 | 9 | 11 => 309999,
        2 => 299996,
        _ => 319999,
    }
}

// Whether a number MMDDYYYY lies from its month's first day to the last. Over numbers of three bytes 17592187 / 2^44
// serves as 1 / 1000000.
fn in_month(n: usize) -> bool
    requires { n < 16777216 }
    ensures { result ≡ in_month n }
{
    let month = (n * 17592187) >> 44;
    let rest = n - month * 1000000;
    (1..=12).contains(&month) && (10001..=last_of(month)).contains(&rest)
}

// Whether some number from n to n + more is a day's: the first and the last of them tell.
#[tactic(auto, unfolding(crate::specs::Days::some_day))]
fn some_day(n: usize, more: usize) -> bool
    requires { n + more < 16777216 }
    ensures { result ≡ some_day n more }
{
    in_month(n) || in_month(n + more)
}

// How many of one byte can be completed to a date.
fn one_front(a: u8) -> usize
    ensures { result ≡ one_front a }
{
    if some_day(wide(a) * 65536, 65535) {
        return 1;
    }
    0
}

// How many of two bytes can be.
fn two_front(a: u8, b: u8) -> usize
    ensures { result ≡ two_front a b }
{
    if some_day(wide(a) * 65536 + wide(b) * 256, 255) {
        return 2;
    }
    one_front(a)
}

// How many of the bytes from a place on can be completed to a date: at most three, and none past the end.
pub fn day_front(seal: &[u8], at: usize) -> usize
    ensures { result ≡ day_front (drop at seal.now) }
{
    let n = seal.len();
    if n <= at {
        return 0;
    }
    let left = n - at;
    if left == 1 {
        return one_front(seal[at]);
    }
    if left == 2 {
        return two_front(seal[at], seal[at + 1]);
    }
    match Date::from_bytes(seal[at], seal[at + 1], seal[at + 2]) {
        Ok(_) => 3,
        Err(NoSuchDate) => two_front(seal[at], seal[at + 1]),
    }
}
