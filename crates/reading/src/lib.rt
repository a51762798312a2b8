// What a reading answers (document 01, "On 0 the reader gives"): its struct and what its fields say, and what the lent table and text hold.
#![tactic(auto)]

ghost use Rattle.std.specs.Prelude.{◌≡◌};
ghost use Rattle.verdict.specs.Judge.{refused as refusedBy};
ghost use Rattle.reading.specs.Calls.{answer_of};

use dates::Date;
pub use fields::Header;
use read_items::Refusal;
use versions::Version;

// The ends of the three zones, each one past the zone's last byte.
#[derive(Clone, Copy)]
pub struct Ends {
    pub header: usize,
    pub message: usize,
    pub seal: usize,
}

// A part of the seal.
#[derive(Clone, Copy)]
pub struct Part {
    pub place: usize,
    pub length: usize,
}

// What a reading answers: the number and its place, and on 0 the header, the zone ends, the raw signature's part and
// the count of features. On any other number every other field is 0.
#[derive(Clone, Copy)]
pub struct Reading {
    pub number: usize,
    pub place: usize,
    pub header: Header,
    pub ends: Ends,
    pub signature: Part,
    pub count: usize,
}

// What the judging gives: the answer, and beside it what it came to.
#[derive(Clone, Copy)]
pub struct Judgement {
    pub reading: Reading,
    // the version of a good seal, by which its rows are walked again; or the item that is not read, the rule that it breaks, and the place
    pub outcome: Result<Version, Refusal>,
}

impl Reading {
    // A refusal: nothing but its number and place.
    pub fn refused(number: usize, place: usize) -> Reading
        ensures { result ≡ answer_of (refusedBy number place) }
    {
        let none = Date {
            month: 0,
            day: 0,
            year: 0,
        };
        let header = Header {
            version: 0,
            country: [0, 0, 0],
            length: 0,
            issued: none,
            signed: none,
            definition: 0,
            category: 0,
        };
        Reading {
            number,
            place,
            header,
            ends: Ends {
                header: 0,
                message: 0,
                seal: 0,
            },
            signature: Part {
                place: 0,
                length: 0,
            },
            count: 0,
        }
    }
}
