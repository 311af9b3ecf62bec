// Figures and replies laid into buffers of every length, against what belongs at each place.
use reply::{NoRoom, cycles_reply, digit_count, lay_digits, status_reply};
use std::process::Abort;

// What a buffer holds before a call.
const MARK: u8 = 0xA5;

// Figures, each as it is written in decimals.
const FIGURES: [(u32, &str); 7] = [
    (0, "0"),
    (9, "9"),
    (10, "10"),
    (99, "99"),
    (100, "100"),
    (120, "120"),
    (4_294_967_295, "4294967295"),
];

// Running cycles and window flashes, each with the reply, worked out by hand from the rule of the reply to a reading of
// the cycles.
const CYCLES: [(u32, u32, &str); 7] = [
    (60, 4, "AM=F.1 CY=60 JC=4"),
    (4, 60, "AM=F.1 CY=4 JC=60"),
    (120, 10, "AM=F.1 CY=120 JC=10"),
    (0, 0, "AM=F.1 CY=0 JC=0"),
    (10_203, 99_999, "AM=F.1 CY=10203 JC=99999"),
    (4_294_967_295, 9, "AM=F.1 CY=4294967295 JC=9"),
    (1, 4_294_967_295, "AM=F.1 CY=1 JC=4294967295"),
];

// The buffer holds the text from this place on, and else the mark.
fn holds(rt: &impl Abort, buffer: &[u8], first: usize, text: &[u8]) {
    for (place, byte) in buffer.iter().enumerate() {
        let expected = match place.checked_sub(first) {
            Some(place) => text.get(place).copied().unwrap_or(MARK),
            None => MARK,
        };
        assert_eq!(rt; *byte, expected);
    }
}

// A figure before each end of the first bytes of a buffer.
fn figure_before_each_end(rt: &impl Abort, room: usize, figure: u32, text: &[u8]) {
    for end in 0..18 {
        let mut buffer = [MARK; 18];
        assert!(rt; room <= 18);
        let place = lay_digits(&mut buffer[0..room], end, figure);
        if text.len() <= end && end <= room {
            assert_eq!(rt; place, Some(end - text.len()));
            holds(rt, &buffer, end - text.len(), text);
        } else {
            assert_eq!(rt; place, None);
            holds(rt, &buffer, 0, b"");
        }
    }
}

#[test]
fn figures_at_every_end(rt: HostRuntime) {
    for (figure, written) in &FIGURES {
        let text = written.as_bytes();
        assert_eq!(rt; digit_count(*figure), text.len());
        for room in 0..17 {
            figure_before_each_end(&rt, room, *figure, text);
        }
    }
}

// What a call answered, and what it left in a buffer of which it had the first bytes.
fn replied(
    rt: &impl Abort,
    answer: Result<usize, NoRoom>,
    buffer: &[u8],
    room: usize,
    text: &[u8],
) {
    let needed = text.len();
    let (expected, written) = if needed <= room {
        (Ok(needed), text)
    } else {
        (Err(NoRoom { needed }), &text[0..0])
    };
    assert_eq!(rt; answer, expected);
    holds(rt, buffer, 0, written);
}

#[test]
fn replies_of_the_state(rt: HostRuntime) {
    for letter in [b'A', b'F', b'R'] {
        for room in 0..25 {
            let mut buffer = [MARK; 26];
            let answer = status_reply(letter, &mut buffer[0..room]);
            replied(&rt, answer, &buffer, room, &[letter]);
        }
    }
}

#[test]
fn replies_of_the_cycles(rt: HostRuntime) {
    for (cycle, window_flash, text) in &CYCLES {
        for room in 0..27 {
            let mut buffer = [MARK; 26];
            let answer = cycles_reply(*cycle, *window_flash, &mut buffer[0..room]);
            replied(&rt, answer, &buffer, room, text.as_bytes());
        }
    }
}
