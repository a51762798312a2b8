// What the writer is given, judged in order (document 01, numbers 20 to 28), before a byte is written.
#![tactic(auto)]

ghost use Rattle.std.specs.Prelude.{◌≡◌};
ghost use Rattle.format.specs.Answers.{told};
ghost use Rattle.write_given.specs.Given.{given};
ghost use Rattle.write_judge.specs.Calls.{writing, writing_of};

use fields::Header;
use versions::Version;

// The error of what the writer refuses; `writing_of` of specs/Calls.antt gives each case its number.
#[derive(Clone, Copy, Debug, PartialEq, Eq)]
pub enum Refused {
    // 20: version not 3 or 4
    Version,
    // 21: country, signer or reference
    Names,
    // 22: a date
    Dates,
    // 23: definition reference or category
    Last,
    // 24: table not in whole rows, tag over 254 or used twice, or a value outside the values buffer
    Rows,
    // 25: value over 255 bytes in version 3
    Values,
    // 26: signature length
    Signature,
    // 27: the seal would pass 4,096
    TooLong,
    // 28: no room for the whole seal
    NoRoom,
}

// What the writer answers for so much room: the size of the seal, or the first test that is not passed.
pub fn judge(
    header: Header,
    text: &[u8],
    rows: &[usize],
    values: &[u8],
    signature: &[u8],
    room: usize,
) -> Result<usize, Refused>
    ensures { writing_of result ≡ told (writing
        (given header text.now rows.now values.now signature.now) room) }
{
    let Ok(version) = Version::from_number(header.version) else {
        return Err(Refused::Version);
    };
    if !write_given::are_names(version, header, text) {
        return Err(Refused::Names);
    }
    if !write_given::are_days(header) {
        return Err(Refused::Dates);
    }
    if !write_given::are_last(header) {
        return Err(Refused::Last);
    }
    if !write_rows::are_rows(rows, values.len()) {
        return Err(Refused::Rows);
    }
    if !write_rows::are_values(version, rows) {
        return Err(Refused::Values);
    }
    if !fields::is_signature(signature.len()) {
        return Err(Refused::Signature);
    }
    let size = write_size::seal_size(version, text.len(), rows, signature.len());
    if 4096 < size {
        return Err(Refused::TooLong);
    }
    if room < size {
        return Err(Refused::NoRoom);
    }
    Ok(size)
}
