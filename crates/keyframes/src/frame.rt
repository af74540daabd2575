use board_base::{BoardState, CpuState, DividerState, EaromState, PokeyState, Ports, VgState};
use page_pool::Page;

/// All fields of a board but its two RAMs.
#[derive(Clone, Copy)]
pub(crate) struct Rest {
    pub clock: u64,
    pub cpu: CpuState,
    pub ports: Ports,
    pub divider: DividerState,
    pub vg: VgState,
    pub sound1: PokeyState,
    pub sound2: PokeyState,
    pub earom: EaromState,
}

/// A kept board: the pages are those of the RAM, then those of the vector RAM.
#[derive(Drop)]
pub(crate) struct Frame {
    pub rest: Rest,
    pub pages: Vec<Page>,
}

impl Rest {
    ghost use Rattle.std.specs.Prelude.{◌≡◌};
    ghost use Rattle.board_base.specs.Board.{IsBoard};
    ghost use Rattle.keyframes.specs.Frames.{IsRest, board_with, rest_of};

    /// The fields of a board.
    pub(crate) fn of(state: &BoardState) -> Rest
        ensures rest { result ≡ rest_of state.now }
        ensures board { IsBoard state.now }
    {
        Rest {
            clock: state.clock,
            cpu: state.cpu,
            ports: state.ports(),
            divider: state.divider,
            vg: state.vg,
            sound1: state.sound1,
            sound2: state.sound2,
            earom: state.earom,
        }
    }

    /// Writes these fields into a board, and leaves its RAMs.
    pub(crate) fn put(&self, into: &mut BoardState)
        requires { IsRest self.now }
        ensures { into.new ≡ board_with self.now into.old.ram into.old.vram }
    {
        into.clock = self.clock;
        into.cpu = self.cpu;
        into.set_ports(self.ports);
        into.divider = self.divider;
        into.vg = self.vg;
        into.sound1 = self.sound1;
        into.sound2 = self.sound2;
        into.earom = self.earom;
    }
}
