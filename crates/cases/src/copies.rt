// Copies of what a ring keeps into lists of every length, at every place.
use records::{Ring, copy_front, copy_kept};

// The length of a list of nines, the place from which 3, 4 and 5 are copied into it, how many are, and six nines of
// which that list is the front. Worked out by hand from the rule of the copy: as many as there is room for, oldest
// first.
const COPIES: [(usize, usize, usize, [u32; 6]); 35] = [
    (0, 0, 0, [9, 9, 9, 9, 9, 9]),
    (0, 1, 0, [9, 9, 9, 9, 9, 9]),
    (1, 0, 1, [3, 9, 9, 9, 9, 9]),
    (1, 1, 0, [9, 9, 9, 9, 9, 9]),
    (1, 2, 0, [9, 9, 9, 9, 9, 9]),
    (2, 0, 2, [3, 4, 9, 9, 9, 9]),
    (2, 1, 1, [9, 3, 9, 9, 9, 9]),
    (2, 2, 0, [9, 9, 9, 9, 9, 9]),
    (2, 3, 0, [9, 9, 9, 9, 9, 9]),
    (3, 0, 3, [3, 4, 5, 9, 9, 9]),
    (3, 1, 2, [9, 3, 4, 9, 9, 9]),
    (3, 2, 1, [9, 9, 3, 9, 9, 9]),
    (3, 3, 0, [9, 9, 9, 9, 9, 9]),
    (3, 4, 0, [9, 9, 9, 9, 9, 9]),
    (4, 0, 3, [3, 4, 5, 9, 9, 9]),
    (4, 1, 3, [9, 3, 4, 5, 9, 9]),
    (4, 2, 2, [9, 9, 3, 4, 9, 9]),
    (4, 3, 1, [9, 9, 9, 3, 9, 9]),
    (4, 4, 0, [9, 9, 9, 9, 9, 9]),
    (4, 5, 0, [9, 9, 9, 9, 9, 9]),
    (5, 0, 3, [3, 4, 5, 9, 9, 9]),
    (5, 1, 3, [9, 3, 4, 5, 9, 9]),
    (5, 2, 3, [9, 9, 3, 4, 5, 9]),
    (5, 3, 2, [9, 9, 9, 3, 4, 9]),
    (5, 4, 1, [9, 9, 9, 9, 3, 9]),
    (5, 5, 0, [9, 9, 9, 9, 9, 9]),
    (5, 6, 0, [9, 9, 9, 9, 9, 9]),
    (6, 0, 3, [3, 4, 5, 9, 9, 9]),
    (6, 1, 3, [9, 3, 4, 5, 9, 9]),
    (6, 2, 3, [9, 9, 3, 4, 5, 9]),
    (6, 3, 3, [9, 9, 9, 3, 4, 5]),
    (6, 4, 2, [9, 9, 9, 9, 3, 4]),
    (6, 5, 1, [9, 9, 9, 9, 9, 3]),
    (6, 6, 0, [9, 9, 9, 9, 9, 9]),
    (6, 7, 0, [9, 9, 9, 9, 9, 9]),
];

#[test]
fn at_every_place(rt: HostRuntime) {
    let mut places = [0u32; 3];
    let mut ring = Ring::new(&mut places);
    for n in 1..6 {
        ring.put(n);
    }
    for (length, from, many, wanted) in &COPIES {
        let mut nines = [9; 6];
        assert!(rt; *length <= 6);
        let copied = ring.copy_to(&mut nines[0..*length], *from);
        assert_eq!(rt; (copied, nines), (*many, *wanted));
    }
}

// Four places that hold 1 to 4: the two numbers of a ring over them, and what it keeps, followed by nines. Worked out
// by hand from the rule of a ring: the newest, oldest first.
const KEPT: [(usize, u32, usize, [u32; 5]); 9] = [
    (0, 0, 0, [9, 9, 9, 9, 9]),
    (1, 1, 1, [1, 9, 9, 9, 9]),
    (3, 3, 3, [1, 2, 3, 9, 9]),
    (0, 4, 4, [1, 2, 3, 4, 9]),
    (1, 5, 4, [2, 3, 4, 1, 9]),
    (3, 4_294_967_295, 4, [4, 1, 2, 3, 9]),
    // until each place has an element, the count says which are kept
    (3, 2, 2, [1, 2, 9, 9, 9]),
    // a next place that is none of the four stands for the first
    (4, 4, 4, [1, 2, 3, 4, 9]),
    (18_446_744_073_709_551_615, 9, 4, [1, 2, 3, 4, 9]),
];

#[test]
fn of_plain_numbers(rt: HostRuntime) {
    let places = [1, 2, 3, 4];
    for (next, put, many, wanted) in &KEPT {
        let mut list = [9; 5];
        let copied = copy_kept(&places, *next, *put, &mut list, 0);
        assert_eq!(rt; (copied, list), (*many, *wanted));
    }
}

// How much of 1, 2, 3 there is, how long a list of nines, how many are copied over its front, and what four nines then
// are. Worked out by hand: as many as both have.
const FRONTS: [(usize, usize, usize, [u32; 4]); 7] = [
    (0, 0, 0, [9, 9, 9, 9]),
    (0, 4, 0, [9, 9, 9, 9]),
    (3, 0, 0, [9, 9, 9, 9]),
    (1, 4, 1, [1, 9, 9, 9]),
    (3, 2, 2, [1, 2, 9, 9]),
    (3, 3, 3, [1, 2, 3, 9]),
    (3, 4, 3, [1, 2, 3, 9]),
];

#[test]
fn over_the_front(rt: HostRuntime) {
    let source = [1, 2, 3];
    for (there, room, many, wanted) in &FRONTS {
        let mut nines = [9; 4];
        assert!(rt; *there <= 3 && *room <= 4);
        let copied = copy_front(&source[0..*there], &mut nines[0..*room]);
        assert_eq!(rt; (copied, nines), (*many, *wanted));
    }
}
