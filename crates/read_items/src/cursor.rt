// The items of a seal, each read at a place: a cursor goes in, and the item comes out with the next cursor (document 01, "Reader").
ghost use Rattle.std.specs.Prelude.{◌≡◌};
ghost use Rattle.verdict.specs.Items as read;
ghost use Rattle.read_items.specs.Meaning.{byte_of, whole_of, step_of, item_of, because, refusal_of, past};

use causes::{Item, Rule, Why};
use dates::Date;
use der::{Fault, Length};
use octets::wide;
use versions::Version;

// A place in the seal.
#[derive(Clone, Copy, Debug, PartialEq, Eq)]
pub struct Cursor {
    pub place: usize,
}

// Why a reading ends: the item that is not read, the rule that it breaks, and the place.
#[derive(Clone, Copy, Debug, PartialEq, Eq)]
pub struct Refusal {
    pub why: Why,
    pub place: usize,
}

// The rule that an item breaks, and the place that is told.
#[derive(Clone, Copy, Debug, PartialEq, Eq)]
pub struct Broken {
    pub rule: Rule,
    pub place: usize,
}

impl Refusal {
    // This item breaks this rule, told at this place.
    pub fn of(item: Item, rule: Rule, place: usize) -> Refusal
        ensures { result ≡ because (read.why item rule) place }
    {
        Refusal {
            why: Why { item, rule },
            place,
        }
    }

    // Why an item was not read, under its name. One that was read has no cause: the answer is that of no refusal, and no
    // caller asks for it.
    pub fn unread<T: Copy>(item: Item, read: Result<T, Broken>) -> Refusal
        ensures { result ≡ refusal_of item read }
    {
        match read {
            Ok(_) => Refusal::of(Item::Seal, Rule::There, 0),
            Err(broken) => Refusal::of(item, broken.rule, broken.place),
        }
    }
}

// The rule that a DER length breaks.
fn length_rule(fault: Fault) -> Rule
    ensures { result ≡ read.length_rule fault }
{
    match fault {
        Fault::NoByte => Rule::There,
        Fault::FirstByte => Rule::BeginsLength,
        Fault::Cut => Rule::RestThere,
        Fault::NotShortest => Rule::Shortest,
    }
}

impl Cursor {
    // The item here breaks this rule.
    pub fn breaks(self, rule: Rule) -> Broken
        ensures { result ≡ record { rule = rule; place = self.place } }
    {
        Broken {
            rule,
            place: self.place,
        }
    }

    // Past so many bytes, if they are there.
    pub fn skip(self, seal: &[u8], size: usize) -> Option<Cursor>
        ensures { whole_of self.place result ≡ read.whole size self.place seal.now (past size self.place) }
    {
        let at = self.place;
        let n = seal.len();
        if n < at {
            return None;
        }
        if n - at < size {
            return None;
        }
        Some(Cursor { place: at + size })
    }

    // The byte here.
    pub fn byte(self, seal: &[u8]) -> Option<(usize, Cursor)>
        ensures { byte_of self.place result ≡ read.byte self.place seal.now (read.plain_in self.place) }
    {
        let at = self.place;
        if seal.len() <= at {
            return None;
        }
        Some((wide(seal[at]), Cursor { place: at + 1 }))
    }

    // Byte DC.
    pub fn mark(self, seal: &[u8]) -> Result<Cursor, Broken>
        ensures { step_of tt result ≡ read.mark self.place seal.now }
    {
        let Some((x, next)) = self.byte(seal) else {
            return Err(self.breaks(Rule::There));
        };
        if x == 0xDC {
            return Ok(next);
        }
        Err(self.breaks(Rule::IsMark))
    }

    // 02 is version 3, 03 is version 4.
    pub fn version(self, seal: &[u8]) -> Result<(Version, Cursor), Broken>
        ensures { item_of result ≡ read.version self.place seal.now }
    {
        let Some((x, next)) = self.byte(seal) else {
            return Err(self.breaks(Rule::There));
        };
        let Ok(version) = Version::from_byte(x) else {
            return Err(self.breaks(Rule::IsVersion));
        };
        Ok((version, next))
    }

    // A date in three bytes.
    pub fn date(self, seal: &[u8]) -> Result<(Date, Cursor), Broken>
        ensures { item_of result ≡ read.date self.place seal.now }
    {
        let at = self.place;
        let Some(next) = self.skip(seal, 3) else {
            return Err(self.breaks(Rule::There));
        };
        let Ok(date) = Date::from_bytes(seal[at], seal[at + 1], seal[at + 2]) else {
            return Err(self.breaks(Rule::IsDay));
        };
        Ok((date, next))
    }

    // Definition reference or category: 1 to 254.
    pub fn last(self, seal: &[u8]) -> Result<(usize, Cursor), Broken>
        ensures { item_of result ≡ read.last self.place seal.now }
    {
        let Some((x, next)) = self.byte(seal) else {
            return Err(self.breaks(Rule::There));
        };
        if x == 0 {
            return Err(self.breaks(Rule::OneTo254));
        }
        if 254 < x {
            return Err(self.breaks(Rule::OneTo254));
        }
        Ok((x, next))
    }

    // A DER length.
    pub fn der_length(self, seal: &[u8]) -> Result<(usize, Cursor), Broken>
        ensures { item_of result ≡ read.der_length self.place seal.now }
    {
        let at = self.place;
        if seal.len() < at {
            return Err(self.breaks(Rule::There));
        }
        match der::read_length(&seal[at..]) {
            Ok(Length { size, width }) => Ok((size, Cursor { place: at + width })),
            Err(fault) => Err(self.breaks(length_rule(fault))),
        }
    }

    // A feature's length: one plain byte in version 3, a DER length in version 4.
    pub fn feature_length(self, seal: &[u8], version: Version) -> Result<(usize, Cursor), Broken>
        ensures { item_of result ≡ read.feature_length version self.place seal.now }
    {
        match version {
            Version::Three => {
                let Some(read) = self.byte(seal) else {
                    return Err(self.breaks(Rule::There));
                };
                Ok(read)
            }
            Version::Four => self.der_length(seal),
        }
    }
}
