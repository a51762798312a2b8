// A reading in the line of a case: number, place and every field, and whether `judge` tells the same.
#![tactic(auto)]

ghost use Rattle.case_file.specs.Line.{Onward};
ghost use Rattle.std.specs.Prelude.{◌≡◌};
ghost use Rattle.case_file.specs.Tells.{Tells};
ghost use Rattle.case_fields.specs.Fields.{fields_of, Alike};

use case_file::{Line, put_part, put_place};
use octets::wide;
use reading::{Header, Reading};

// Every field but number and place, in their order.
fn fields_of(reading: Reading) -> [usize; 19]
    ensures { result ≡ fields_of reading }
{
    let header = reading.header;
    let country = header.country;
    let issued = header.issued;
    let signed = header.signed;
    let ends = reading.ends;
    let signature = reading.signature;
    [
        header.version,
        wide(country[0]),
        wide(country[1]),
        wide(country[2]),
        header.length,
        issued.month,
        issued.day,
        issued.year,
        signed.month,
        signed.day,
        signed.year,
        header.definition,
        header.category,
        ends.header,
        ends.message,
        ends.seal,
        signature.place,
        signature.length,
        reading.count,
    ]
}

// Whether two readings are the same in number, place and every field.
fn agree(a: Reading, b: Reading) -> bool
    ensures { Tells result (Alike a b) }
{
    a.number == b.number && a.place == b.place && fields_of(a) == fields_of(b)
}

// Puts down the country, and the header's numbers: version, L, both dates, definition reference, category.
fn put_header(header: Header, out: &mut Line)
    ensures { Onward out.old out.new }
{
    let country = header.country;
    let issued = header.issued;
    let signed = header.signed;
    let numbers = [
        header.version,
        header.length,
        issued.month,
        issued.day,
        issued.year,
        signed.month,
        signed.day,
        signed.year,
        header.definition,
        header.category,
    ];
    out.text(b" country ");
    out.text(&country);
    put_part(out, b" header", &numbers);
}

// Puts down every field but number and place: the header, the zone ends, the signature's place and length, the count.
fn put_fields(r: Reading, out: &mut Line)
    ensures { Onward out.old out.new }
{
    let header = r.header;
    let ends = r.ends;
    let signature = r.signature;
    put_header(header, out);
    put_part(out, b" ends", &[ends.header, ends.message, ends.seal]);
    put_part(out, b" signature", &[signature.place, signature.length]);
    put_part(out, b" count", &[r.count]);
}

// Puts down a reading: number, place, and the fields, or that all of them are 0.
pub fn put_reading(r: Reading, out: &mut Line)
    ensures { Onward out.old out.new }
{
    put_place(r.number, r.place, out);
    if fields_of(r) == [0usize; 19] {
        out.text(b" empty");
    } else {
        put_fields(r, out);
    }
}

// Puts down that `judge` answers the same as `read`, or what it answers.
pub fn put_judged(read: Reading, judged: Reading, out: &mut Line)
    ensures { Onward out.old out.new }
{
    if agree(read, judged) {
        out.text(b" agrees\n");
        return;
    }
    out.text(b" judge ");
    put_reading(judged, out);
    out.put(b'\n');
}
