//! The speed of the fast devices beside the plain ones, of a bare processor, and of whole boards.
//!
//! With no word on the command line it does a small fixed amount of work and prints sums, which are
//! the same on every machine, and whether boards of fast devices do what boards of plain ones do.
//! With a number it does that many clocks of each kind, and prints speeds and ratios, by the
//! processor time that they took. With `pairs FROM TO` it compares the boards of more seeds.
#![tactic(auto)]

mod asked;
mod board;
mod busy;
mod measure;
mod pairs;
mod picture;
mod plays;
mod processor;
mod programs;
mod report;
mod shifts;
mod sound;
mod tally;
mod work;

use asked::Report;
use measure::Fault;
use std::alloc::Global;
use std::time::CpuClock;
use std::{env, io};

/// What the command line asks for.
enum Task {
    /// Sums, or times.
    Measure(Report),
    /// The busy boards of these seeds and up to that one, on both kinds of devices.
    Pairs { from: u64, to: u64 },
}

/// A number of the command line.
fn number(word: &str) -> Result<u64, Fault> {
    match word.parse::<u64>() {
        Ok(number) => Ok(number),
        Err(_) => Err(Fault::Usage),
    }
}

/// Reads the command line.
fn task_asked<R: env::Env + Alloc>(rt: &R) -> Result<Task, Fault> {
    let mut words = env::args(rt)?.skip(1);
    let Some(first) = words.next() else {
        return Ok(Task::Measure(Report::Sums));
    };
    if first.as_str() != "pairs" {
        let clocks = number(&first)?;
        return Ok(Task::Measure(Report::Times { clocks }));
    }
    let (Some(from), Some(to)) = (words.next(), words.next()) else {
        return Err(Fault::Usage);
    };
    Ok(Task::Pairs {
        from: number(&from)?,
        to: number(&to)?,
    })
}

/// Prints the measures, and where they are sums, whether both kinds of devices do the same.
fn report_all<R: io::Print + CpuClock>(rt: &R, alloc: Global, report: Report) -> Result<(), Fault> {
    report::pictures(rt, alloc, report)?;
    report::sounds(rt, alloc, report)?;
    report::moves(rt, alloc, report)?;
    report::instructions(rt, alloc, report)?;
    report::boards(rt, alloc, report)?;
    if report == Report::Sums {
        pairs::small_boards(rt, alloc)?;
        pairs::busy_boards(rt, alloc, 0, 32)?;
    }
    Ok(())
}

fn main(rt: HostRuntime) -> Result<(), Fault> {
    match task_asked(&rt)? {
        Task::Measure(report) => report_all(&rt, rt.alloc(), report),
        Task::Pairs { from, to } => pairs::busy_boards(&rt, rt.alloc(), from, to),
    }
}
