//! Laws of runs in windows. Each is the contract of a function that does nothing.
ghost use Rattle.std.specs.Prelude.{List};
ghost use Rattle.tape_ports.specs.declared.entry.TapeEntry.{TapeEntry};
ghost use Rattle.lockstep_board.specs.Lockstep.{Board};
ghost use Rattle.lockstep_board.specs.Order.{HasNoRecords, AreMadeBetween, records_of};
ghost use Rattle.lockstep_board.specs.Run.{IsPlaced};
ghost use Rattle.run_windows.specs.declared.until.Until.{Until as until_value};
ghost use Rattle.run_windows.specs.Windows.{IsFirstWindow, end_of};

/// The next window of a run is a first part of it: the records of the run are those of the window
/// and then those of the rest of the run. From a board without records each of them is of the run's
/// clocks.
#[tactic(auto, using(crate::proofs::WatchLaws::window_laws))]
pub fn windows_are_the_run()
    ensures first { (entries : List TapeEntry) → (until : until_value) → (b : Board) → IsPlaced b → HasNoRecords b → IsFirstWindow entries until b }
    ensures made { (entries : List TapeEntry) → (until : until_value) → (b : Board) → HasNoRecords b
        → AreMadeBetween b.peripherals.clock (records_of (end_of entries until b)) (end_of entries until b).peripherals.clock }
{}
