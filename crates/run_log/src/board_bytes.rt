ghost use Rattle.std.specs.Prelude.{◌≡◌};
ghost use Rattle.catchup_engine.specs.EngineValue.{counted_on};
ghost use Rattle.lockstep_board.specs.Peripherals.{board_of};
ghost use Rattle.save_state.specs.Reading.{IsWhole};
ghost use Rattle.run_windows.specs.SyncedMachine.{loan_of, value_of};
ghost use Rattle.run_log.specs.Slices.{saved_bytes};

use board_base::BoardState;
use catchup_engine::Machine;
use run_windows::SyncedMachine;
use save_state::STATE_LEN;

/// A board and its bytes, each of which is copied into the place of the one before it.
#[derive(Drop)]
pub struct Saved {
    state: BoardState,
    pub bytes: [u8; STATE_LEN],
}

impl Saved {
    /// The board of a synchronised machine.
    pub fn of<M: Machine>(synced: &SyncedMachine<'_, M>) -> Saved
        ensures bytes { result.bytes ≡ saved_bytes (value_of synced.now).board }
        ensures whole { IsWhole (board_of (value_of synced.now).board.cpu (value_of synced.now).board.peripherals) }
    {
        let mut saved = Saved {
            state: BoardState::power_on(),
            bytes: [0; STATE_LEN],
        };
        saved.save(synced);
        saved
    }

    /// Takes the board of a synchronised machine in the place of the one before.
    pub fn save<M: Machine>(&mut self, synced: &SyncedMachine<'_, M>)
        ensures bytes { self.new.bytes ≡ saved_bytes (value_of synced.now).board }
        ensures whole { IsWhole (board_of (value_of synced.now).board.cpu (value_of synced.now).board.peripherals) }
    {
        synced.machine().state(&mut self.state);
        save_state::write(&self.state, &mut self.bytes);
    }
}

/// Goes on from the board that is read back from its bytes. Five device calls.
pub fn load_saved<M: Machine>(synced: &mut SyncedMachine<'_, M>, bytes: &[u8; STATE_LEN])
    requires bytes { bytes.now ≡ saved_bytes (value_of synced.old).board }
    requires whole { IsWhole (board_of (value_of synced.old).board.cpu (value_of synced.old).board.peripherals) }
    ensures same { loan_of synced.new ≡ loan_of synced.old }
    ensures value { value_of synced.new ≡ record (value_of synced.old) { calls = counted_on (value_of synced.old).calls 5 } }
{
    match save_state::read(bytes) {
        Ok(state) => synced.load(&state),
        Err(_) => unreachable!(),
    }
}
