// Drafts at their limits and beyond them.
use sheet::Draft;
use std::process::Abort;

// A draft that is accepted, with each pair of figures as far apart as it can be.
const PLAIN: [u32; 22] = [
    7, 60, 5, 20, 4, 3, 4, 999, 10, 1, 10, 15, 2, 20, 3, 80, 60, 70, 200, 30, 900, 600,
];

// The number and the figure of a refusal, or this where there is none.
const ACCEPTED: (u32, u32) = (0, 0);

// The number and the figure of a draft's refusal; accepted or not, the draft's figures are handed on.
fn refusal_of(rt: &impl Abort, figures: [u32; 22]) -> (u32, u32) {
    let (handed_on, refusal) = match Draft::new(figures).accept() {
        Ok(sheet) => (sheet.figures().figures(), ACCEPTED),
        Err(refused) => {
            let refusal = refused.cause.refusal();
            (refused.draft.figures(), (refusal.number, refusal.figure))
        }
    };
    assert_eq!(rt; handed_on, figures);
    refusal
}

// PLAIN with other values for some figures, which are counted from 1.
fn plain_with(changes: &[(usize, u32)]) -> [u32; 22] {
    let mut figures = PLAIN;
    for (figure, value) in changes {
        if let Some(place) = figures.get_mut(figure.wrapping_sub(1)) {
            *place = *value;
        }
    }
    figures
}

// A figure, its lowest and highest value from the table of the figures, and what each of them gives in place of
// PLAIN's, worked out by hand. At four limits the pair of the figure is out of order: a full queue of 1 or a cleared
// one of 999 (2, figure 10), a lowest flow of 900 or a highest of 30 against the first flow of 600 (3, figure 22).
const LIMITS: [(usize, u32, u32, (u32, u32), (u32, u32)); 22] = [
    (1, 1, 9_999, ACCEPTED, ACCEPTED),
    (2, 30, 300, ACCEPTED, ACCEPTED),
    (3, 1, 30, ACCEPTED, ACCEPTED),
    (4, 5, 120, ACCEPTED, ACCEPTED),
    (5, 2, 10, ACCEPTED, ACCEPTED),
    (6, 3, 5, ACCEPTED, ACCEPTED),
    (7, 2, 30, ACCEPTED, ACCEPTED),
    (8, 1, 999, (2, 10), ACCEPTED),
    (9, 1, 120, ACCEPTED, ACCEPTED),
    (10, 1, 999, ACCEPTED, (2, 10)),
    (11, 1, 120, ACCEPTED, ACCEPTED),
    (12, 0, 240, ACCEPTED, ACCEPTED),
    (13, 1, 4, ACCEPTED, ACCEPTED),
    (14, 10, 60, ACCEPTED, ACCEPTED),
    (15, 1, 15, ACCEPTED, ACCEPTED),
    (16, 0, 99, ACCEPTED, ACCEPTED),
    (17, 1, 2_000, ACCEPTED, ACCEPTED),
    (18, 1, 200, ACCEPTED, ACCEPTED),
    (19, 1, 999, ACCEPTED, ACCEPTED),
    (20, 30, 900, ACCEPTED, (3, 22)),
    (21, 30, 900, (3, 22), ACCEPTED),
    (22, 30, 900, ACCEPTED, ACCEPTED),
];

// Each figure changed to 0.
const ZEROS: [(usize, u32); 22] = [
    (1, 0),
    (2, 0),
    (3, 0),
    (4, 0),
    (5, 0),
    (6, 0),
    (7, 0),
    (8, 0),
    (9, 0),
    (10, 0),
    (11, 0),
    (12, 0),
    (13, 0),
    (14, 0),
    (15, 0),
    (16, 0),
    (17, 0),
    (18, 0),
    (19, 0),
    (20, 0),
    (21, 0),
    (22, 0),
];

// Changes of PLAIN, and what they give, worked out by hand from the order of the causes and the rules of both pairs.
const CHANGES: [(&[(usize, u32)], (u32, u32)); 11] = [
    // all at once: the lowest figure outside its limits
    (&ZEROS, (1, 1)),
    // figures 3 and 19 outside, and the queue out of order
    (&[(3, 31), (10, 999), (19, 0)], (1, 3)),
    // figure 22 outside its limits is 1, not 3
    (&[(22, 901)], (1, 22)),
    // both pairs out of order: the queue first
    (&[(10, 999), (20, 601)], (2, 10)),
    (&[(8, 500), (10, 499)], ACCEPTED),
    (&[(8, 500), (10, 500)], (2, 10)),
    (&[(8, 500), (10, 501)], (2, 10)),
    // the first flow at the lowest and at the highest, and one beyond each
    (&[(20, 600), (21, 600)], ACCEPTED),
    (&[(20, 601), (21, 600)], (3, 22)),
    (&[(20, 600), (21, 599)], (3, 22)),
    // no change
    (&[], ACCEPTED),
];

// Both limits of a figure, one below and one above them, and the largest number. One below a limit of 0 is that too.
#[test]
fn each_limit(rt: HostRuntime) {
    for (figure, lowest, highest, at_lowest, at_highest) in &LIMITS {
        let outside = (1, *figure as u32);
        for (value, expected) in [
            (lowest.wrapping_sub(1), outside),
            (*lowest, *at_lowest),
            (*highest, *at_highest),
            (highest.wrapping_add(1), outside),
            (4_294_967_295, outside),
        ] {
            let figures = plain_with(&[(*figure, value)]);
            assert_eq!(rt; refusal_of(&rt, figures), expected, "figure {figure}");
        }
    }
}

#[test]
fn first_cause_is_told(rt: HostRuntime) {
    for (changes, expected) in &CHANGES {
        assert_eq!(rt; refusal_of(&rt, plain_with(changes)), *expected);
    }
}
