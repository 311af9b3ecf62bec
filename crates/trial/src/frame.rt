// What stands around the lines of a picture: its size, names, the time axis, and what the marks mean.
use std::io::{self, Write};

// The width of the time axis.
const WIDTH: u64 = 1_600;

// The width of what stands left of it.
const LEFT: u64 = 90;

// The seconds between two marks of the time axis: the first of these that gives at most 24.
const STEPS: [u64; 9] = [10, 60, 300, 600, 1_800, 3_600, 14_400, 43_200, 86_400];

// The names of what is drawn, each with its height in the part that is drawn in seconds.
const NAMES: [(&str, u32); 6] = [
    ("colour", 30),
    ("trip, reset", 71),
    ("line", 93),
    ("period", 117),
    ("vehicle", 143),
    ("queue 0-1000", 200),
];

// What the colours mean.
const MEANINGS: [(&str, &str); 8] = [
    ("#555", "dark"),
    ("#d22", "red"),
    ("#e80", "fixed amber"),
    ("#fd5", "flashing amber"),
    ("#000", "trip"),
    ("#36a", "line or reset taken"),
    ("#d22", "line or reset refused"),
    ("#888", "period closed"),
];

// The seconds between two marks for a run of so many seconds; a week where no other step will do.
fn step_for(seconds: u64) -> u64 {
    for step in STEPS {
        if seconds / step < 25 {
            return step;
        }
    }
    604_800
}

// Two digits of a number below 100.
fn two(number: u64) -> (u64, u64) {
    (number / 10 % 10, number % 10)
}

/// Begins a picture of so many seconds. What follows is drawn in seconds from left to right.
pub(crate) fn frame_start<W: Write>(out: &mut W, seconds: u64) -> io::Result<()> {
    let span = seconds.max(1);
    writeln!(
        out,
        "<svg xmlns=\"http://www.w3.org/2000/svg\" viewBox=\"0 0 1720 430\" width=\"1720\" height=\"430\" \
         font-family=\"sans-serif\" font-size=\"12\">"
    )?;
    writeln!(out, "<rect width=\"1720\" height=\"430\" fill=\"#fff\"/>")?;
    writeln!(
        out,
        "<svg x=\"{LEFT}\" y=\"20\" width=\"{WIDTH}\" height=\"340\" viewBox=\"0 0 {span} 340\" \
         preserveAspectRatio=\"none\">"
    )?;
    writeln!(
        out,
        "<style>path {{ fill: none; stroke-width: 1; vector-effect: non-scaling-stroke; }}</style>"
    )
}

// A mark of the time axis, so many seconds after the beginning: hours, minutes and seconds.
fn write_time<W: Write>(out: &mut W, at: u64, span: u64) -> io::Result<()> {
    let along = at.saturating_mul(WIDTH).checked_div(span).unwrap_or(0);
    let x = LEFT.saturating_add(along);
    let hours = at / 3_600;
    let (m, n) = two(at / 60 % 60);
    let (s, t) = two(at % 60);
    writeln!(
        out,
        "<path d=\"M{x} 20V366\" stroke=\"#ccc\"/>\
         <text x=\"{x}\" y=\"380\" text-anchor=\"middle\">{hours}:{m}{n}:{s}{t}</text>"
    )
}

// The marks of the time axis.
fn write_axis<W: Write>(out: &mut W, seconds: u64) -> io::Result<()> {
    let span = seconds.max(1);
    let step = step_for(seconds);
    for k in 0..=24 {
        let at = step.saturating_mul(k);
        if at <= seconds {
            write_time(out, at, span)?;
        }
    }
    Ok(())
}

// The names of what is drawn.
fn write_names<W: Write>(out: &mut W) -> io::Result<()> {
    for (name, y) in NAMES {
        let y = y.saturating_add(20);
        writeln!(out, "<text x=\"4\" y=\"{y}\">{name}</text>")?;
    }
    writeln!(out, "<text x=\"4\" y=\"310\">cycle 0-120</text>")
}

// What the colours mean.
fn write_meanings<W: Write>(out: &mut W) -> io::Result<()> {
    for (k, (fill, meaning)) in MEANINGS.iter().enumerate() {
        let x = LEFT.saturating_add((k as u64).saturating_mul(170));
        writeln!(
            out,
            "<rect x=\"{x}\" y=\"400\" width=\"12\" height=\"12\" fill=\"{fill}\"/>"
        )?;
        let x = x.saturating_add(18);
        writeln!(out, "<text x=\"{x}\" y=\"411\">{meaning}</text>")?;
    }
    Ok(())
}

/// Ends a picture of so many seconds.
pub(crate) fn frame_end<W: Write>(out: &mut W, seconds: u64) -> io::Result<()> {
    writeln!(out, "</svg>")?;
    write_axis(out, seconds)?;
    write_names(out)?;
    write_meanings(out)?;
    writeln!(out, "</svg>")
}
