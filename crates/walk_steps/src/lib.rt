// The steps of a walk over the features of a seal (document 02, Ticket 2): where the first one is made, and what one finds at a place.
#![tactic(auto)]

ghost use Rattle.std.specs.Prelude.{◌≡◌};
ghost use Rattle.verdict.specs.Judge.{judge};
ghost use Rattle.rows.specs.Rows.{row_of};
ghost use Rattle.walk_steps.specs.Steps.{no_more, found as found_at, start_of, feature_at, step_at};
ghost use Rattle.walk_steps.specs.Short.{IsShort};

use read_items::Cursor;
pub use rows::Row;
use versions::Version;

// What opening a walk answers: number and place are the judge's, and on 0 the first step is made at `at`. On any other number that is 0.
#[derive(Clone, Copy)]
pub struct Start {
    pub number: usize,
    pub place: usize,
    pub at: usize,
}

// What a step answers: 0, a feature's row, and where the next step is made; or 51, and every other field is 0.
#[derive(Clone, Copy)]
pub struct Step {
    pub number: usize,
    pub place: usize,
    pub row: Row,
    pub at: usize,
}

// No further feature.
fn no_more() -> Step
    ensures { result ≡ no_more }
{
    Step {
        number: 51,
        place: 0,
        row: Row {
            tag: 0,
            start: 0,
            place: 0,
            size: 0,
        },
        at: 0,
    }
}

// Where the walk over a seal starts: at the end of its header, if it is accepted.
pub fn start_of(seal: &[u8]) -> Start
    ensures { result ≡ start_of (judge seal.now) }
{
    let judged = reader::judge(seal);
    Start {
        number: judged.number,
        place: judged.place,
        at: judged.ends.header,
    }
}

// A feature with a whole value, and the place after it.
fn found(tag: usize, start: usize, value: Cursor, size: usize, end: Cursor) -> Step
    ensures { result ≡ found_at (row_of tag start value.place size) end.place }
{
    let row = Row {
        tag,
        start,
        place: value.place,
        size,
    };
    Step {
        number: 0,
        place: 0,
        row,
        at: end.place,
    }
}

// The feature whose tag stands at a place, by the version.
fn feature_at(seal: &[u8], version: Version, at: usize) -> Step
    ensures { result ≡ feature_at version seal.now at }
{
    let here = Cursor { place: at };
    let Some((tag, next)) = here.byte(seal) else {
        return no_more();
    };
    if tag == 0xFF {
        return no_more();
    }
    let Ok((size, value)) = next.feature_length(seal, version) else {
        return no_more();
    };
    let Some(end) = value.skip(seal, size) else {
        return no_more();
    };
    found(tag, at, value, size, end)
}

// What a step finds at a place of a seal, which need not be one that a walk has reached.
pub fn step_at(seal: &[u8], at: usize) -> Step
    ensures { result ≡ step_at seal.now at }
{
    if at == 0 {
        return no_more();
    }
    let second = Cursor { place: 1 };
    let Ok((version, _)) = second.version(seal) else {
        return no_more();
    };
    feature_at(seal, version, at)
}

// What a step finds whose feature has a length below 128, which is one byte in both versions; none where it finds anything else.
fn short_step(seal: &[u8], at: usize) -> Option<Step>
    ensures { IsShort seal.now at result }
{
    let second = Cursor { place: 1 };
    second.version(seal).ok()?;
    let here = Cursor { place: at };
    let (tag, next) = here.byte(seal)?;
    if tag == 0xFF {
        return None;
    }
    let (size, value) = next.byte(seal)?;
    if 0x7F < size {
        return None;
    }
    let end = value.skip(seal, size)?;
    Some(found(tag, at, value, size, end))
}

// What a step finds, as `step_at` has it, with few instructions for the features that most seals have.
pub fn quick_step(seal: &[u8], at: usize) -> Step
    ensures { result ≡ step_at seal.now at }
{
    if at == 0 {
        return no_more();
    }
    let Some(step) = short_step(seal, at) else {
        return step_at(seal, at);
    };
    step
}
