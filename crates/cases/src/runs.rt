// A run under two step limiters: acts of every kind, with refusals, a trip and a reset in between. What each act
// answers and leaves behind was worked out by hand from the rules.
use control::Mode;
use lamps::{ChosenHead, Colour, RelayHead};
use plan::Word;
use records::Phase;
use replay::{Act, Answered, LineAct, Outcome, Run, SecondAct};
use sheet::{Draft, MinuteRange, Sheet};
use station::View;
use std::process::Abort;
use std::test::Fail;
use strategy::{Alinea, BaseStrategy, ChosenStrategy, Limiter};

// The figures of the sheet: opening flash 60, window flash 4, two lanes.
const FIGURES: [u32; 22] = [
    7, 60, 5, 20, 4, 3, 4, 800, 10, 100, 10, 15, 2, 20, 3, 80, 60, 70, 200, 30, 900, 600,
];

// The whole week.
const ALWAYS: [MinuteRange; 1] = [MinuteRange {
    from: 0,
    to: 10_080,
}];

// What stands in a place for an answer before its act is played.
const UNPLAYED: Answered = Answered {
    outcome: Outcome::Reset(Ok(())),
    view: View {
        seconds: 0,
        colour: Colour::Dark,
        phase: Phase::Standby,
        mode: Mode::Local,
        wanted: false,
        cycle: 0,
    },
};

// A command line with an answer buffer of 80 bytes.
const fn line(text: &[u8]) -> Act<'_> {
    Act::Line(LineAct { text, room: 80 })
}

// A second with a vehicle at the line and no lane read, in which the lamps give this word back.
const fn second(word: Word) -> Act<'static> {
    Act::Second(SecondAct {
        presence: true,
        queue_ms: 0,
        word,
        minute: 480,
        calendar: &ALWAYS,
        lanes: &[],
    })
}

fn accepted(rt: &impl Abort) -> Result<Sheet, Fail> {
    match Draft::new(FIGURES).accept() {
        Ok(sheet) => Ok(sheet),
        Err(_) => panic!(rt; "the sheet is refused"),
    }
}

// The number of an act's refusal (0 for one that was taken), its reply, and what is seen after it: seconds, colour,
// phase, and whether metering is wanted.
type Told<'a> = (u32, &'a [u8], u32, Colour, Phase, bool);

fn told(answered: &Answered) -> Told<'_> {
    let (refusal, reply): (u32, &[u8]) = match &answered.outcome {
        Outcome::Line(Ok(reply)) => (0, reply.as_slice()),
        Outcome::Line(Err(refused)) | Outcome::Reset(Err(refused)) => (
            refused.refusal().number,
            b"",
        ),
        Outcome::Second(_) | Outcome::Reset(Ok(())) => (0, b""),
    };
    let View {
        seconds,
        colour,
        phase,
        wanted,
        ..
    } = answered.view;
    (refusal, reply, seconds, colour, phase, wanted)
}

const EXPECTED: [Told<'static>; 11] = [
    // a reset of a station that is not tripped
    (10, b"", 0, Colour::Dark, Phase::Standby, false),
    // central mode, then the centre's cycle, which makes metering wanted
    (0, b"", 0, Colour::Dark, Phase::Standby, false),
    (0, b"", 0, Colour::Dark, Phase::Standby, true),
    (
        0,
        b"AM=F.1 CY=0 JC=4",
        0,
        Colour::Dark,
        Phase::Standby,
        true,
    ),
    // a cycle above 120
    (7, b"", 0, Colour::Dark, Phase::Standby, true),
    // the lamps show dark, as ordered; then none is lit, where flashing amber is ordered
    (0, b"", 1, Colour::FlashingAmber, Phase::OpeningFlash, true),
    (0, b"", 2, Colour::Dark, Phase::Tripped, true),
    // an order to a tripped station, and a status reading
    (8, b"", 2, Colour::Dark, Phase::Tripped, true),
    (0, b"H", 2, Colour::Dark, Phase::Tripped, true),
    // the reset gives standby, local mode and not wanted; then the calendar wants metering
    (0, b"", 2, Colour::Dark, Phase::Standby, false),
    (0, b"", 3, Colour::FlashingAmber, Phase::OpeningFlash, true),
];

#[test]
fn acts_of_every_kind_under_two_limiters(rt: HostRuntime) -> Result<(), Fail> {
    let acts = [
        Act::Reset,
        line(b"PA, AM=PIL, AF=PF/0"),
        line(b"PA, AM=F.1, CY=60"),
        line(b"PE"),
        line(b"PA, AM=F.1, CY=121"),
        second(Word::Lit),
        second(Word::Given(0)),
        line(b"PA, AM=PIL, AF=PF/1"),
        line(b"P"),
        Act::Reset,
        second(Word::Lit),
    ];
    let sheet = accepted(&rt)?;
    let base = BaseStrategy::Alinea(Alinea::new(&sheet));
    let strategy = ChosenStrategy::Twice(Limiter::new(Limiter::new(base, 5), 10));
    let head = ChosenHead::Relay(RelayHead::new());
    let mut answers = [UNPLAYED; 11];
    let (run, view) = Run::played_through(sheet, strategy, head, &acts, &mut answers);
    for (answered, expected) in answers.iter().zip(&EXPECTED) {
        assert_eq!(rt; told(answered), *expected);
    }
    assert_eq!(rt; (view.seconds, view.phase), (3, Phase::OpeningFlash));
    let totals = run.totals();
    assert_eq!(rt;
        (totals.seconds, totals.openings, totals.longest),
        (3, 0, 0)
    );
    assert_eq!(rt; (totals.trips, totals.refusals), (1, 3));
    Ok(())
}
