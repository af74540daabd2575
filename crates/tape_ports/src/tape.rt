ghost use Rattle.std.specs.Prelude.{◌≡◌, ◌<◌, ◌≤◌, All, IfOk, drop, length, take};

use crate::entry::TapeEntry;
use crate::fault::{LineCause, TapeFault};
use crate::line::{Line, parse_line};
use board_base::{CLOCK_LIMIT, OutOfMemory};
use plain_text::read_line;
use std::alloc::Global;
use std::marker::Model;

/// The most bytes that a tape's text has.
pub const TAPE_LIMIT: usize = 16_777_216;

/// The bytes that a run sets at the ports, each with its clock, and the clock at which the run
/// ends. This project's own choice.
#[derive(Drop)]
pub struct Tape {
    entries: Vec<TapeEntry>,
    end: u64,
}

impl Model for Tape {
    ghost use Rattle.tape_ports.specs.Tape.{TapeValue, IsTape};

    ghost Value = { TapeValue };

    ghost view = { λ t. record { entries = t.entries.items; end = t.end } };

    ghost invariant = { λ t. IsTape (record { entries = t.entries.items; end = t.end }) };
}

impl Tape {
    ghost use Rattle.tape_ports.specs.Grammar.{ReadsTape};
    ghost use Rattle.tape_ports.specs.Tape.{IsTape, count_before};

    /// Reads the text of a tape, once from its front to its end.
    ///
    /// An entry line is a clock, a port and two hexadecimal digits of either case, parted by single
    /// spaces; the last line is a clock and `END`. A clock has 1 to 15 digits and is at most
    /// `CLOCK_LIMIT`. Each line ends with LF, which may be missing after the last. The text has at
    /// most `TAPE_LIMIT` bytes. Memory is taken for the entries alone.
    pub fn read(alloc: Global, bytes: &[u8]) -> Result<Tape, TapeFault>
        ensures { ReadsTape bytes.now result }
    {
        if bytes.len() > TAPE_LIMIT {
            return Err(TapeFault::TooLong);
        }
        let mut entries = Vec::new(alloc);
        let mut rest = bytes;
        let mut line = 1;
        let mut before = 0;
        'lines: while !rest.is_empty() {
            let (first, after) = read_line(rest);
            match parse_line(before, first) {
                Ok(Line::Entry(entry)) => {
                    entries.push(entry).map_err(|_| TapeFault::OutOfMemory)?;
                    before = entry.clock;
                }
                Ok(Line::End(end)) if after.is_empty() => return Ok(Tape { entries, end }),
                Ok(Line::End(_)) => {
                    return Err(TapeFault::BadLine {
                        line: line + 1,
                        cause: LineCause::AfterEnd,
                    });
                }
                Err(cause) => return Err(TapeFault::BadLine { line, cause }),
            }
            rest = after;
            line += 1;
        }
        Err(TapeFault::BadLine {
            line,
            cause: LineCause::NoEnd,
        })
    }

    /// Copies the entries, in their order. Clocks count from 0, the first of a run from power-on.
    pub fn new(alloc: Global, entries: &[TapeEntry], end: u64) -> Result<Tape, OutOfMemory>
        requires { IsTape (record { entries = entries.now; end = end }) }
        ensures { IfOk result (λ tape. tape ≡ record { entries = entries.now; end = end }) }
    {
        let entries = Vec::from_slice(alloc, entries)?;
        Ok(Tape { entries, end })
    }

    /// The END clock, at which a run ends where no smaller limit is given.
    pub fn end(&self) -> u64
        ensures end { result ≡ self.now.end }
        ensures range { result ≤ CLOCK_LIMIT }
    {
        self.end
    }

    /// The entries, in the order in which they are applied.
    pub fn entries(&self) -> &[TapeEntry]
        ensures entries { result.now ≡ self.now.entries }
        ensures tape { IsTape self.now }
    {
        self.entries.as_slice()
    }

    /// The number of entries with a smaller clock, which is the place of the first that has this
    /// clock or a later one. It looks at few entries, by halves.
    #[tactic(auto, using(crate::proofs::Places::places))]
    pub fn first_from(&self, clock: u64) -> usize
        ensures count { result ≡ count_before clock self.now.entries }
        ensures within { result ≤ length self.now.entries }
        ensures before { All (λ entry. entry.clock < clock) (take result self.now.entries) }
        ensures from { All (λ entry. clock ≤ entry.clock) (drop result self.now.entries) }
    {
        self.entries
            .as_slice()
            .partition_point(|entry| entry.clock < clock)
    }
}
