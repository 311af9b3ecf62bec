// Lamp heads: orders and cuts, and words through both heads.
ghost use Rattle.std.specs.Prelude.{◌≡◌, ◌%◌};

use crate::tables::gives;
use lamps::{Colour, CurrentHead, Lamp, LampHead, LampSet, LampWords, RelayHead};
use records::TripCode;
use std::process::Abort;

#[test]
fn numbers_of_colours_lamps_and_trips(rt: HostRuntime) {
    let lit = [
        Colour::Dark.lamps().bits(),
        Colour::Red.lamps().bits(),
        Colour::FixedAmber.lamps().bits(),
        Colour::FlashingAmber.lamps().bits(),
    ];
    let lamps = [
        Lamp::Red.number(),
        Lamp::FixedAmber.number(),
        Lamp::FlashingAmber.number(),
    ];
    let codes = [TripCode::NotLit.number(), TripCode::Unwanted.number()];
    assert_eq!(rt; (lit, lamps, codes), ([0, 1, 2, 4], [1, 2, 4], [1, 2]));
}

// A call on a head.
#[derive(Clone, Copy)]
enum Call {
    Order(Colour),
    Cut,
    Restore,
}

// Calls, each with the colour that the head means after it, worked out by hand from the rule of a cut: dark until it
// ends.
const CALLS: [(Call, Colour); 16] = [
    (Call::Order(Colour::Red), Colour::Red),
    (Call::Order(Colour::FlashingAmber), Colour::FlashingAmber),
    (Call::Order(Colour::FixedAmber), Colour::FixedAmber),
    (Call::Order(Colour::Dark), Colour::Dark),
    (Call::Order(Colour::Red), Colour::Red),
    (Call::Cut, Colour::Dark),
    (Call::Order(Colour::Red), Colour::Dark),
    (Call::Order(Colour::FlashingAmber), Colour::Dark),
    (Call::Cut, Colour::Dark),
    (Call::Order(Colour::FixedAmber), Colour::Dark),
    (Call::Restore, Colour::Dark),
    (Call::Order(Colour::FixedAmber), Colour::FixedAmber),
    (Call::Restore, Colour::Dark),
    (Call::Order(Colour::Red), Colour::Red),
    (Call::Cut, Colour::Dark),
    (Call::Restore, Colour::Dark),
];

// The set that a head reads of its own word for a set.
fn read_back<H: LampWords>(head: &H, lit: u32) -> u32
    ensures { result ≡ lit % 8 }
{
    head.read(head.word_for(LampSet::from_bits(lit))).bits()
}

// Sets, and numbers above them, with the set that each stands for: the remainder by 8, worked out by hand.
const SETS: [(u32, u32); 12] = [
    (0, 0),
    (1, 1),
    (2, 2),
    (3, 3),
    (4, 4),
    (5, 5),
    (6, 6),
    (7, 7),
    (8, 0),
    (13, 5),
    (1_000_007, 7),
    (4_294_967_295, 7),
];

// A new head reads its own word of each set. It goes through the calls, and reads the same after each.
fn head_is_right<H: LampWords>(rt: &impl Abort, head: &mut H, word: u32) {
    for (set, lit) in &SETS {
        assert_eq!(rt; read_back(head, *set), *lit);
    }
    assert_eq!(rt; head.ordered(), Colour::Dark);
    let lit = head.read(word);
    for (call, colour) in &CALLS {
        match *call {
            Call::Order(chosen) => head.order(chosen),
            Call::Cut => head.cut(),
            Call::Restore => head.restore(),
        }
        assert_eq!(rt; (head.ordered(), head.read(word)), (*colour, lit));
    }
}

// Words of the relay head, with the set of their lowest three bits, worked out by hand.
const RELAY_WORDS: [(u32, u32); 5] = [
    (7, 7),
    (8, 0),
    (15, 7),
    (2_147_483_648, 0),
    (4_294_967_295, 7),
];

// Four hundred words over the whole range: the sum of the lowest three bits' values.
#[test]
fn relay_head(rt: HostRuntime) {
    let mut head = RelayHead::new();
    head_is_right(&rt, &mut head, 5);
    gives(&rt, |word| head.read(word).bits(), &RELAY_WORDS);
    for step in 0..400u32 {
        let word = step.wrapping_mul(10_764_287);
        assert_eq!(rt;
            head.read(word).bits(),
            (word & 1) | (word & 2) | (word & 4)
        );
    }
}

// Currents of a lamp, each with whether it is lit, worked out by hand from the rule of the currents: from 20 on.
const CURRENTS: [(u8, bool); 6] = [
    (0, false),
    (19, false),
    (20, true),
    (21, true),
    (128, true),
    (255, true),
];

// Each current of each lamp, whatever the highest byte: 432 words.
#[test]
fn current_head(rt: HostRuntime) {
    let mut head = CurrentHead::new();
    head_is_right(&rt, &mut head, 6_553_600);
    for (red, red_lit) in &CURRENTS {
        for (fixed, fixed_lit) in &CURRENTS {
            for (flashing, flashing_lit) in &CURRENTS {
                let lit = u32::from(*red_lit)
                    + 2 * u32::from(*fixed_lit)
                    + 4 * u32::from(*flashing_lit);
                for highest in [0, 255] {
                    let word = u32::from_le_bytes([*red, *fixed, *flashing, highest]);
                    assert_eq!(rt; head.read(word).bits(), lit);
                }
            }
        }
    }
}
