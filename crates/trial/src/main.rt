// trial: plays a plan, and writes its log, holds or judges a recorded log of it, or draws the run.
#![tactic(auto)]

mod comparison;
mod frame;
mod judging;
mod lines;
mod log_writer;
mod picture;
mod playing;
mod rows;
mod stop;
mod strip;
mod watching;

use crate::comparison::Comparison;
use crate::judging::{Judging, judge_plan};
use crate::log_writer::LogWriter;
use crate::picture::Picture;
use crate::playing::Plan;
use crate::stop::{Stop, USAGE};
use crate::watching::play_watched;
use std::env;
use std::fs::File;
use std::io::{BufWriter, Read, Write};
use std::process::ExitCode;

// Opens a file.
fn open(rt: &HostRuntime, path: String) -> Result<File, Stop> {
    File::open(rt, path.as_str()).map_err(|e| Stop::Unreadable(path, e))
}

// Plays the plan that is read from here, and writes its log. What was written before a fault stays written.
fn run<R: Read + Drop>(rt: &HostRuntime, from: R, needed: bool) -> Result<(), Stop> {
    let log = LogWriter(BufWriter::new(rt.alloc(), rt.stdout())?);
    play_watched(Plan::new(rt.alloc(), from)?, log, needed)
}

// Plays a plan, and holds a recorded log against it.
fn hold(rt: &HostRuntime, plan: String, log: String) -> Result<(), Stop> {
    let plan = open(rt, plan)?;
    let log = open(rt, log)?;
    let out = BufWriter::new(rt.alloc(), rt.stdout())?;
    let comparison = Comparison::new(rt.alloc(), log, out)?;
    play_watched(Plan::new(rt.alloc(), plan)?, comparison, false)
}

// Judges a recorded log of a plan.
fn judge(rt: &HostRuntime, plan: String, log: String) -> Result<(), Stop> {
    let plan = open(rt, plan)?;
    let log = open(rt, log)?;
    let out = BufWriter::new(rt.alloc(), rt.stdout())?;
    let judging = Judging::new(rt.alloc(), log, out)?;
    judge_plan(Plan::new(rt.alloc(), plan)?, judging)
}

// Plays a plan, and draws the run.
fn draw(rt: &HostRuntime, plan: String) -> Result<(), Stop> {
    let plan = open(rt, plan)?;
    let out = BufWriter::new(rt.alloc(), rt.stdout())?;
    let picture = Picture::new(rt.alloc(), out);
    play_watched(Plan::new(rt.alloc(), plan)?, picture, false)
}

// Writes how the program is used.
fn help(rt: &HostRuntime) -> Result<(), Stop> {
    let mut out = rt.stdout();
    writeln!(out, "{USAGE}")?;
    Ok(())
}

// A command with its plan, and with a recorded log where it takes one.
fn command(rt: &HostRuntime, command: &str, plan: String, log: Option<String>) -> Result<(), Stop> {
    match (command, log) {
        ("picture", None) => draw(rt, plan),
        ("hold", Some(log)) => hold(rt, plan, log),
        ("judge", Some(log)) => judge(rt, plan, log),
        _ => Err(Stop::Usage),
    }
}

// What the arguments ask for.
fn start(rt: &HostRuntime) -> Result<(), Stop> {
    let mut args = env::args(rt)?;
    let _program = args.next();
    let Some(first) = args.next() else {
        return run(rt, rt.stdin(), true);
    };
    let Some(plan) = args.next() else {
        return match first.as_str() {
            "--help" => help(rt),
            _ => run(rt, open(rt, first)?, false),
        };
    };
    let log = args.next();
    match args.next() {
        None => command(rt, first.as_str(), plan, log),
        Some(_) => Err(Stop::Usage),
    }
}

fn main(rt: HostRuntime) -> ExitCode {
    match start(&rt) {
        Ok(()) => ExitCode::SUCCESS,
        Err(Stop::SheetRefused(_) | Stop::Differs) => ExitCode::FAILURE,
        Err(stop) => {
            let _ = eprintln!(rt; "{stop}");
            ExitCode::FAILURE
        }
    }
}
