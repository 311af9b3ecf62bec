// Rings over none, one, two and five places, of numbers, alarms and periods.
ghost use Rattle.std.specs.Prelude.{◌≡◌};

use lamps::Lamp;
use records::{AlarmRecord, PeriodRecord, Phase, Ring, TripCode, put_in};
use std::process::Abort;
use strategy::Measure;

// A kind of element, with one for each number.
trait Numbered: Copy + PartialEq {
    fn numbered(n: u32) -> Self;
}

impl Numbered for u32 {
    fn numbered(n: u32) -> u32 {
        n
    }
}

impl Numbered for AlarmRecord {
    fn numbered(n: u32) -> AlarmRecord {
        let (code, lamp, phase) = if n % 2 == 0 {
            (TripCode::NotLit, Lamp::Red, Phase::Metering)
        } else {
            (TripCode::Unwanted, Lamp::FlashingAmber, Phase::Standby)
        };
        AlarmRecord {
            second: n,
            code,
            lamp,
            phase,
        }
    }
}

impl Numbered for PeriodRecord {
    fn numbered(n: u32) -> PeriodRecord {
        let measure = Measure {
            flow: n,
            occupancy_permille: 230,
        };
        PeriodRecord {
            number: n,
            minute: n,
            measure: if n % 3 == 0 { None } else { Some(measure) },
            cycle: 10,
            openings: n,
        }
    }
}

// The list begins with `many` elements, oldest first, the newest of which has the number put; the rest has number 0.
fn newest_come_last<T: Numbered>(rt: &impl Abort, list: &[T], many: u32, put: u32) {
    let gone = put.saturating_sub(many);
    let mut place = 0u32;
    for x in list {
        place = place.saturating_add(1);
        let number = if place <= many {
            gone.saturating_add(place)
        } else {
            0
        };
        assert!(rt; *x == T::numbered(number));
    }
}

// The ring has counted all that were put, and keeps `many` of them, the newest; they are copied into the list.
fn newest_are_kept<T: Numbered>(
    rt: &impl Abort,
    ring: &Ring<'_, T>,
    list: &mut [T],
    many: u32,
    put: u32,
) {
    for x in list.iter_mut() {
        *x = T::numbered(0);
    }
    let copied = ring.copy_to(list, 0);
    let kept = many as usize;
    assert_eq!(rt; (ring.count(), ring.len(), copied), (put, kept, kept));
    newest_come_last(rt, list, many, put);
}

// Twelve puts into a ring over these places, of which there are `room`.
fn twelve_puts<T: Numbered>(rt: &impl Abort, places: &mut [T], list: &mut [T], room: u32) {
    let mut ring = Ring::new(places);
    newest_are_kept(rt, &ring, list, 0, 0);
    for put in 1..13u32 {
        ring.put(T::numbered(put));
        newest_are_kept(rt, &ring, list, room.min(put), put);
    }
}

// Rings over none, one, two and five of the places.
fn of_every_size<T: Numbered>(rt: &impl Abort, places: &mut [T], list: &mut [T]) {
    for room in [0u32, 1, 2, 5] {
        assert!(rt; room as usize <= places.len());
        twelve_puts(rt, &mut places[0..room as usize], list, room);
    }
}

// Three places that hold 7, 8 and 9: the two numbers, what a put of 1 makes of the places, and the two numbers after
// it. Worked out by hand from the rule of a ring: the next place, round the end.
const PUTS: [((usize, u32), [u32; 3], (usize, u32)); 9] = [
    ((0, 0), [1, 8, 9], (1, 1)),
    ((1, 1), [7, 1, 9], (2, 2)),
    ((2, 2), [7, 8, 1], (0, 3)),
    ((0, 3), [1, 8, 9], (1, 4)),
    ((2, 5), [7, 8, 1], (0, 6)),
    ((1, 4_294_967_295), [7, 1, 9], (2, 4_294_967_295)),
    // until each place has an element, the count says where it goes
    ((2, 1), [7, 1, 9], (2, 2)),
    // a next place that is none of the three stands for the first
    ((3, 3), [1, 8, 9], (1, 4)),
    (
        (18_446_744_073_709_551_615, 4_294_967_295),
        [1, 8, 9],
        (1, 4_294_967_295),
    ),
];

#[test]
fn puts_over_plain_numbers(rt: HostRuntime) {
    for ((next, put), wanted, numbers) in &PUTS {
        let mut places = [7, 8, 9];
        let after = put_in(&mut places, *next, *put, 1);
        assert_eq!(rt; (places, after), (*wanted, *numbers));
    }
    let mut none = [0u32; 0];
    assert_eq!(rt; put_in(&mut none, 0, 0, 1), (0, 1));
}

// What a caller who lent five places reads in the second of them after two puts.
fn second_place(x: u32) -> u32
    ensures { result ≡ x }
{
    let mut places = [0u32; 5];
    let mut ring = Ring::new(&mut places);
    ring.put(0);
    ring.put(x);
    places[1]
}

#[test]
fn rings(rt: HostRuntime) {
    of_every_size(&rt, &mut [0u32; 5], &mut [0u32; 6]);
    let (alarm, period) = (AlarmRecord::numbered(0), PeriodRecord::numbered(0));
    of_every_size(&rt, &mut [alarm; 5], &mut [alarm; 6]);
    of_every_size(&rt, &mut [period; 5], &mut [period; 6]);
    assert_eq!(rt; second_place(17), 17);
}
