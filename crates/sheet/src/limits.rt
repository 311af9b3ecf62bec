// What a draft is held against: the limits of each figure, and the figures that have to fit each other.
ghost use Rattle.std.specs.Prelude.{◌≡◌, ◌<◌, length, position, IfSome};
ghost use Rattle.std.specs.List.{zip};
ghost use Rattle.sheet.specs.Limits.{is_outside};
ghost use Rattle.sheet.specs.Causes.{cause_of, cause_of_limits, cause_of_pairs, checked};

use crate::draft::{Cause, Draft};

// The lowest and the highest value of each figure, in the order of their numbers.
const LIMITS: [(u32, u32); 22] = [
    (1, 9_999),
    (30, 300),
    (1, 30),
    (5, 120),
    (2, 10),
    (3, 5),
    (2, 30),
    (1, 999),
    (1, 120),
    (1, 999),
    (1, 120),
    (0, 240),
    (1, 4),
    (10, 60),
    (1, 15),
    (0, 99),
    (1, 2_000),
    (1, 200),
    (1, 999),
    (30, 900),
    (30, 900),
    (30, 900),
];

// Whether a figure is below or above its limits.
fn is_outside(limits: (u32, u32), figure: u32) -> bool
    ensures { result ≡ is_outside limits figure }
{
    !(limits.0..=limits.1).contains(&figure)
}

// The place, counted from 0, of the first figure outside its limits, if there is one.
fn place_outside(limits: &[(u32, u32)], figures: &[u32]) -> Option<usize>
    ensures value { result ≡ position (λ p. is_outside p.0 p.1) (zip limits.now figures.now) }
    ensures place { IfSome result (λ i. i < length limits.now) }
{
    limits
        .iter()
        .zip(figures)
        .position(|(limits, figure)| is_outside(*limits, *figure))
}

// Refuses a draft with a figure outside its limits. A place is below 22, so the cast loses nothing.
fn check_limits(draft: &Draft) -> Result<(), Cause>
    ensures { result ≡ checked (cause_of_limits draft.now) }
{
    match place_outside(&LIMITS, &draft.figures()) {
        Some(place) => Err(Cause::OutsideLimits(place as u32 + 1)),
        None => Ok(()),
    }
}

// Refuses a draft whose figures do not fit each other.
fn check_pairs(draft: &Draft) -> Result<(), Cause>
    ensures { result ≡ checked (cause_of_pairs draft.now) }
{
    if draft.queue_cleared >= draft.queue_full {
        Err(Cause::ClearedNotBelowFull)
    } else if is_outside((draft.lowest_flow, draft.highest_flow), draft.first_flow) {
        Err(Cause::FirstFlowOutside)
    } else {
        Ok(())
    }
}

/// Refuses a draft with the first cause that applies.
pub(crate) fn check(draft: &Draft) -> Result<(), Cause>
    ensures { result ≡ checked (cause_of draft.now) }
{
    check_limits(draft)?;
    check_pairs(draft)
}
