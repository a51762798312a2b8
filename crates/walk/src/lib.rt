// The walk over the features of a seal (document 02, Ticket 2): a reader opened on one seal and asked for its features one after another,
// without a table. Each function takes the walk apart and calls one of `walk_steps` on the slice and the place.
#![tactic(auto)]

ghost use Rattle.std.specs.Prelude.{◌≡◌};
ghost use Rattle.lent.specs.Part.{IsPart};
ghost use Rattle.verdict.specs.Judge.{judge};
ghost use Rattle.walk_steps.specs.Steps.{start_of, step_at};
ghost use Rattle.walk.specs.Walks.{opened_of, next_of};

use lent::part;
pub use walk_steps::{Row, Start, Step};
use walk_steps::{quick_step, start_of};

// A walk: the lent seal, and the place of the next step. One that has ended, or was never opened, is at place 0.
#[derive(Clone, Copy)]
pub struct Walk<'a> {
    seal: &'a [u8],
    at: usize,
}

// A walk that is opened.
#[derive(Clone, Copy)]
pub struct Opened<'a> {
    pub start: Start,
    pub walk: Walk<'a>,
}

// What a walk found, and the walk after it.
#[derive(Clone, Copy)]
pub struct Found<'a> {
    pub step: Step,
    pub walk: Walk<'a>,
}

// Opens a walk on a lent seal: one that is refused gives its number and place, and a walk that has no feature.
pub fn open<'a>(seal: &'a [u8]) -> Opened<'a>
    ensures { result ≡ opened_of seal.entry }
{
    let start = start_of(seal);
    let at = start.at;
    Opened {
        start,
        walk: Walk { seal, at },
    }
}

// The next feature, and the walk after it; or 51, as often as it is asked.
pub fn next<'a>(walk: Walk<'a>) -> Found<'a>
    ensures { result ≡ next_of walk.entry }
{
    let step = quick_step(walk.seal, walk.at);
    let at = step.at;
    Found {
        step,
        walk: Walk {
            seal: walk.seal,
            at,
        },
    }
}

// The value of what a walk found: that part of the lent seal, and no copy. It is empty where there was no further feature.
pub fn value<'a>(found: Found<'a>) -> &'a [u8]
    ensures { IsPart found.entry.walk.seal found.entry.step.row.place found.entry.step.row.size result }
{
    let walk = found.walk;
    let row = found.step.row;
    part(walk.seal, row.place, row.size)
}

// What opening a walk on `seal` answers, for callers that keep the place themselves.
pub fn start_at(seal: &[u8]) -> Start
    ensures { result ≡ start_of (judge seal.now) }
{
    let opened = open(seal);
    opened.start
}

// What a walk over `seal` that is at a place finds next, for such callers.
pub fn next_at(seal: &[u8], at: usize) -> Step
    ensures { result ≡ step_at seal.now at }
{
    let found = next(Walk { seal, at });
    found.step
}

// The value of what a walk over `seal` that is at a place finds next, for such callers.
pub fn value_at<'a>(seal: &'a [u8], at: usize) -> &'a [u8]
    ensures { IsPart seal.entry (step_at seal.now at).row.place (step_at seal.now at).row.size result }
{
    value(next(Walk { seal, at }))
}
