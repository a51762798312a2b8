// The structs of the C face for whole seals: a header, and what a reading answers. specs/Face.antt sets out what each holds, field by
// field.
#![tactic(auto)]

ghost use Rattle.std.specs.Prelude.{◌≡◌};
ghost use Rattle.face_seals.specs.Face.{header_of, ends_of, part_of, reading_of, inner_header};

use dates::Date;
use face::FrDate;
use reading::{Ends, Header, Part, Reading};

// The reader gives it and the writer takes it; `length` is the reference's.
#[repr(C)]
#[derive(Clone, Copy)]
pub struct FrHeader {
    pub version: usize,
    pub country: [u8; 3],
    pub length: usize,
    pub issued_on: FrDate,
    pub signed_on: FrDate,
    pub definition: usize,
    pub category: usize,
}

// The ends of the three zones, each one past the zone's last byte.
#[repr(C)]
#[derive(Clone, Copy)]
pub struct FrEnds {
    pub header: usize,
    pub message: usize,
    pub seal: usize,
}

// A part of the seal.
#[repr(C)]
#[derive(Clone, Copy)]
pub struct FrPart {
    pub place: usize,
    pub length: usize,
}

// What a reading answers; `front` is the length of the longest front part of the input with which some accepted seal begins.
#[repr(C)]
#[derive(Clone, Copy)]
pub struct FrReading {
    pub number: usize,
    pub place: usize,
    pub header: FrHeader,
    pub ends: FrEnds,
    pub signature: FrPart,
    pub count: usize,
    pub front: usize,
}

// A header, as the face gives it.
impl From<Header> for FrHeader {
    ghost from_gives = { λ header given. given ≡ header_of header };

    fn from(header: Header) -> FrHeader {
        let country = header.country;
        FrHeader {
            version: header.version,
            country,
            length: header.length,
            issued_on: FrDate::from(header.issued),
            signed_on: FrDate::from(header.signed),
            definition: header.definition,
            category: header.category,
        }
    }
}

// The header that a caller gives, as the layers beneath take it.
impl From<FrHeader> for Header {
    ghost from_gives = { λ given header. header ≡ inner_header given };

    fn from(given: FrHeader) -> Header {
        let country = given.country;
        Header {
            version: given.version,
            country,
            length: given.length,
            issued: Date::from(given.issued_on),
            signed: Date::from(given.signed_on),
            definition: given.definition,
            category: given.category,
        }
    }
}

// The ends of the zones, as the face gives them.
impl From<Ends> for FrEnds {
    ghost from_gives = { λ ends given. given ≡ ends_of ends };

    fn from(ends: Ends) -> FrEnds {
        FrEnds {
            header: ends.header,
            message: ends.message,
            seal: ends.seal,
        }
    }
}

// A part, as the face gives it.
impl From<Part> for FrPart {
    ghost from_gives = { λ part given. given ≡ part_of part };

    fn from(part: Part) -> FrPart {
        FrPart {
            place: part.place,
            length: part.length,
        }
    }
}

impl FrReading {
    // A reading and the front part beside it, as the face gives them.
    pub fn of(reading: Reading, front: usize) -> FrReading
        ensures { result ≡ reading_of reading front }
    {
        FrReading {
            number: reading.number,
            place: reading.place,
            header: FrHeader::from(reading.header),
            ends: FrEnds::from(reading.ends),
            signature: FrPart::from(reading.signature),
            count: reading.count,
            front,
        }
    }
}
