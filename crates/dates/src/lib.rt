// Dates of a seal (document 01, Dates; Doc 9303-13, 2.3.1): month, day and year as one number MMDDYYYY, big-endian in three bytes.
#![tactic(auto)]

ghost use Rattle.std.specs.Prelude.{◌≡◌, [], ◌∷◌};
ghost use Rattle.format.specs.BigEndian.{val};
ghost use Rattle.dates.specs.Days.{is_day, dated, first_day, last_day};
ghost use Rattle.dates.specs.Calls.{taken_of, numbered_of, from_number, to_number};

mod calendar;

#[derive(Clone, Copy)]
pub struct Date {
    pub month: usize,
    pub day: usize,
    pub year: usize,
}

// The error of a number, and of a date, that is no day of the calendar: 6 where a date is read, 22 where one is given, as `taken_of` and
// `numbered_of` of specs/Calls.antt say.
#[derive(Clone, Copy, Debug, PartialEq, Eq)]
pub struct NoSuchDate;

impl Date {
    // 1 January of year 1.
    pub const FIRST: Date = Date {
        month: 1,
        day: 1,
        year: 1,
    };
    // 31 December of year 9999.
    pub const LAST: Date = Date {
        month: 12,
        day: 31,
        year: 9999,
    };

    // FIRST and LAST under a promise. The second clause asks the constant itself: its value is settled whatever a body does.
    pub fn first() -> Date
        ensures value { result ≡ first_day }
        ensures dated_value { dated Date.FIRST.month Date.FIRST.day Date.FIRST.year ≡ first_day }
    {
        Date::FIRST
    }

    pub fn last() -> Date
        ensures value { result ≡ last_day }
        ensures dated_value { dated Date.LAST.month Date.LAST.day Date.LAST.year ≡ last_day }
    {
        Date::LAST
    }

    // Whether there is such a day: month and year from the first to the last, and a day of that month.
    pub fn is_day(self) -> bool
        ensures { result ≡ is_day self }
    {
        let first = Date::FIRST;
        let last = Date::LAST;
        if self.month < first.month {
            return false;
        }
        if last.month < self.month {
            return false;
        }
        if self.year < first.year {
            return false;
        }
        if last.year < self.year {
            return false;
        }
        if self.day < first.day {
            return false;
        }
        self.day <= calendar::days_in(self.year, self.month)
    }

    // The date whose number MMDDYYYY this is, without a division: over numbers of eight digits 109951163 / 2^40 serves as 1 / 10000, and
    // over those of four 5243 / 2^19 as 1 / 100.
    pub fn from_number(number: usize) -> Result<Date, NoSuchDate>
        ensures { taken_of result ≡ from_number number }
    {
        // past eight digits there is no such month
        if 99999999 < number {
            return Err(NoSuchDate);
        }
        let month_and_day = (number * 109951163) >> 40;
        let month = (month_and_day * 5243) >> 19;
        let date = Date {
            month,
            day: month_and_day - month * 100,
            year: number - month_and_day * 10000,
        };
        if date.is_day() {
            return Ok(date);
        }
        Err(NoSuchDate)
    }

    // The date in three bytes, big-endian.
    pub fn from_bytes(a: u8, b: u8, c: u8) -> Result<Date, NoSuchDate>
        ensures { taken_of result ≡ from_number (val (a ∷ b ∷ c ∷ []) 3) }
    {
        Date::from_number((a as usize) * 65536 + (b as usize) * 256 + (c as usize))
    }

    // The date's number MMDDYYYY, below 2 to the 24 and so three bytes. The fields are public, so a date may be no day.
    pub fn number(self) -> Result<usize, NoSuchDate>
        ensures { numbered_of result ≡ to_number self }
    {
        let date = self;
        if !date.is_day() {
            return Err(NoSuchDate);
        }
        Ok(date.month * 1000000 + date.day * 10000 + date.year)
    }
}
