//! The whole of a suite.

use crate::emulator::Emulator;
use crate::lines::{Level, pieces, suite_lines};
use crate::rows::run_row;
use crate::stopped::Stopped;
use outside_io::Sink;
use std::alloc::Global;

/// Shows a row with what differs in it.
fn show<O: Sink>(alloc: Global, title: &str, differs: &str, out: &mut O) -> Result<(), Stopped> {
    let word = if differs.is_empty() { "ok" } else { "differs" };
    let text = format!(in alloc; "{word} {title}\n{differs}")?;
    out.write(text.as_bytes())?;
    Ok(())
}

/// Does all rows of a suite's text, prints a line for each and then what differs, and returns how
/// many differ.
pub fn run_suite<E: Emulator, O: Sink>(
    alloc: Global,
    emulator: &E,
    text: &str,
    out: &mut O,
) -> Result<u32, Stopped> {
    let lines = suite_lines(alloc, text)?;
    let blocks = pieces(alloc, lines.as_slice(), Level::Block)?;
    let mut differing = 0u32;
    for block in &blocks {
        let report = run_row(alloc, emulator, blocks.as_slice(), block)?;
        let title = block.first().copied().unwrap_or("no row");
        show(alloc, title, report.text(), out)?;
        if !report.text().is_empty() {
            differing = differing.saturating_add(1);
        }
    }
    Ok(differing)
}
