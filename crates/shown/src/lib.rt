// The value of a tag in a main seal and its extension (document 02, Ticket 2): out of the extension if it has that feature, otherwise out
// of the main seal.
#![tactic(auto)]

ghost use Rattle.std.specs.Prelude.{◌≡◌};
ghost use Rattle.shown.specs.Where.{where_is, IsShown};
ghost use Rattle.shown.specs.Found.{HasValue, IsFirst};

use lent::part;
pub use reading::Part;

// Where the value of a tag stands: in which seal, at which place, and how long it is.
#[derive(Clone, Copy)]
pub enum Where {
    Extension(Part),
    Main(Part),
}

// Why no value of a tag is shown.
#[derive(Clone, Copy, Debug, PartialEq, Eq)]
pub enum NotShown {
    // the main seal is refused, with its number and place
    Main(usize, usize),
    // the extension is
    Extension(usize, usize),
    // neither has that feature
    Neither,
}

// The value of a tag among the features from a place on, found by the walk's steps. No tag is used twice, so the first is the only one.
fn value_from(seal: &[u8], start: usize, tag: usize) -> Option<Part>
    ensures { HasValue seal.now start tag result }
{
    let mut at = start;
    loop {
        let step = walk_steps::step_at(seal, at);
        if step.number != 0 {
            return None;
        }
        let row = step.row;
        if row.tag == tag {
            return Some(Part {
                place: row.place,
                length: row.size,
            });
        }
        at = step.at;
    }
}

// The value of a tag in the extension, whose walk starts at a place, or else in the main seal.
fn where_from(
    main: &[u8],
    main_start: usize,
    extension: &[u8],
    extension_start: usize,
    tag: usize,
) -> Result<Where, NotShown>
    ensures { IsFirst main.now main_start extension.now extension_start tag result }
{
    if let Some(value) = value_from(extension, extension_start, tag) {
        return Ok(Where::Extension(value));
    }
    let value = value_from(main, main_start, tag).ok_or(NotShown::Neither)?;
    Ok(Where::Main(value))
}

// Where the value of a tag stands; a seal that is refused refuses the look-up, the main one first.
pub fn where_is(main: &[u8], extension: &[u8], tag: usize) -> Result<Where, NotShown>
    ensures { result ≡ where_is main.now extension.now tag }
{
    let first = walk_steps::start_of(main);
    if first.number != 0 {
        return Err(NotShown::Main(first.number, first.place));
    }
    let second = walk_steps::start_of(extension);
    if second.number != 0 {
        return Err(NotShown::Extension(second.number, second.place));
    }
    where_from(main, first.at, extension, second.at, tag)
}

// Shows the value of a tag: that part of the lent seal that has it, and no copy; an empty part where there is none.
pub fn shown<'a>(main: &'a [u8], extension: &'a [u8], tag: usize) -> &'a [u8]
    ensures { IsShown main.entry extension.entry (where_is main.now extension.now tag) result }
{
    match where_is(main, extension, tag) {
        Ok(Where::Extension(value)) => part(extension, value.place, value.length),
        Ok(Where::Main(value)) => part(main, value.place, value.length),
        Err(_) => part(main, 0, 0),
    }
}
