//! Boards of a run at clocks that are asked for.
ghost use Rattle.std.specs.Prelude.{◌≡◌, ◌≤◌, length, map, min};
ghost use Rattle.board_base.specs.Board.{IsBoard};
ghost use Rattle.command_line.specs.declared.number.TheConstants.{CUTS};
ghost use Rattle.gravitar_commands.specs.RunReport.{sought_text};

use crate::failure::{Ending, Failure};
use crate::parts::Parts;
use crate::reporting::{Report, written};
use arrayvec::ArrayVec;
use board_base::BoardState;
use board_debug::write_boards;
use catchup_engine::{Devices, Engine};
use command_line::{CUTS, Cuts};
use keyframes::{Keyframes, keep_start};
use outside_io::Sink;
use std::alloc::Global;

/// The pages of 256 bytes for the boards that are kept: those of the start and of 1,000 asked
/// clocks.
pub const SEEK_PAGES: u32 = 16_016;

/// How many boards are kept at most.
pub const SEEK_FRAMES: u32 = 1001;

/// The numbers of a seek.
pub fn seek_numbers()
    ensures pages { SEEK_PAGES ≡ 16016 }
    ensures frames { SEEK_FRAMES ≡ 1001 }
{}

/// These clocks, each lowered to a limit.
fn lowered(clocks: &[u64], limit: u64) -> Cuts
    requires few { length clocks.now ≤ CUTS }
    ensures clocks { result.items ≡ map (min limit) clocks.now }
{
    let mut lowered = ArrayVec::new();
    for clock in clocks {
        lowered.push(limit.min(*clock));
    }
    lowered
}

/// The boards of a run at these clocks, at most 1,000, in their order, each lowered to the run's
/// limit. A board that jams is shown as any other.
#[derive(Clone, Copy)]
pub struct Boards<'a> {
    pub clocks: &'a [u64],
}

impl Report for Boards<'_> {
    ghost use Rattle.std.specs.Prelude.{◌≤◌, length};
    ghost use Rattle.command_line.specs.declared.number.TheConstants.{CUTS};

    ghost text = { λ boards. sought_text boards.clocks.now };

    ghost can_report = { λ boards. length boards.clocks.now ≤ CUTS };

    fn report<O: Sink>(
        &self,
        alloc: Global,
        wired: bool,
        limit: u64,
        parts: &Parts,
        out: &mut O,
    ) -> Result<Ending, Failure> {
        let mut keys = Keyframes::new(alloc, SEEK_PAGES, SEEK_FRAMES)?;
        let mut engine = Engine::new(alloc, &parts.image, &parts.board, Devices::fast(), wired)?;
        lemma_board(&parts.board);
        keep_start(&mut keys, &parts.board);
        let clocks = lowered(self.clocks, limit);
        written(write_boards(&mut engine, &mut keys, &parts.tape, clocks.as_slice(), out))
    }
}

/// States that a state is a board, and does nothing.
fn lemma_board(state: &BoardState)
    ensures { IsBoard state.now }
{
    // opens the model
    let _clock = state.clock;
}
