// The Gregorian calendar (document 02, Ticket 3), told without a division, as the hook's processor has none.
ghost use Rattle.std.specs.Prelude.{◌≡◌, ◌≤◌};
ghost use Rattle.dates.specs.Days.{is_leap, days_in};

const FEBRUARY: usize = 2;

// Whether it is a leap year. 25 goes into a year of four digits year * 5243 / 2^17 times. Where it goes in without a remainder, the year
// is a leap year if 16 divides it and so 400; every other year is one if 4 divides it.
pub(crate) fn is_leap(year: usize) -> bool
    requires { year ≤ 9999 }
    ensures { result ≡ is_leap year }
{
    if ((year * 5243) >> 17) * 25 == year {
        return year & 15 == 0;
    }
    year & 3 == 0
}

// How many days the month has. But for February they take turns, 31 and 30: from January, and again from August, the eighth.
pub(crate) fn days_in(year: usize, month: usize) -> usize
    requires { (year ≤ 9999) × (1 ≤ month) × (month ≤ 12) }
    ensures { result ≡ days_in year month }
{
    if month == FEBRUARY {
        if is_leap(year) {
            return 29;
        }
        return 28;
    }
    30 + ((month + (month >> 3)) & 1)
}
