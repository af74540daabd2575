ghost use Rattle.std.specs.Prelude.{◌≡◌, ℕ, List};
ghost use Rattle.run_windows.specs.SyncedMachine.{value_of};
ghost use Rattle.run_stretch.specs.Kept.{IsKept};
ghost use Rattle.run_stretch.specs.Stretches.{EndsAt};

use crate::kept_text::KeptText;
use board_base::BoardState;
use catchup_engine::Machine;
use run_windows::SyncedMachine;
use save_state::STATE_LEN;

/// What a stretch came to.
#[derive(Drop)]
pub struct Stretch {
    /// The board at its end, as bytes of a saved board.
    pub board: [u8; STATE_LEN],
    /// What it returns, the lines of its records or its samples, where there is room for all of it.
    pub output: Vec<u8>,
    /// How many bytes it returns, also where there is no room for them.
    pub wanted: u64,
    /// The clock at its end.
    pub clock: u64,
    /// Whether an undocumented opcode has stopped the processor there, or before it.
    pub jammed: bool,
}

/// A stretch of which this is kept, and which ended where a synchronised machine stands.
pub(crate) fn ended<M: Machine>(synced: &SyncedMachine<'_, M>, kept: KeptText) -> Stretch
    ensures { (room : ℕ) → (text : List ℕ) → IsKept room text kept → EndsAt room text (value_of synced.now).board result }
{
    let machine = synced.machine();
    let mut state = BoardState::power_on();
    machine.state(&mut state);
    let mut board = [0; STATE_LEN];
    save_state::write(&state, &mut board);
    Stretch {
        board,
        output: kept.bytes,
        wanted: kept.wanted,
        clock: machine.clock(),
        jammed: machine.cpu().jam.is_some(),
    }
}
