ghost use Rattle.std.specs.Prelude.{◌≡◌, ℕ, List, []};
ghost use Rattle.tape_ports.specs.declared.entry.TapeEntry.{TapeEntry};
ghost use Rattle.log_text.specs.LogText.{log_text};
ghost use Rattle.lockstep_board.specs.Lockstep.{Board};
ghost use Rattle.lockstep_board.specs.Order.{HasNoRecords};
ghost use Rattle.lockstep_board.specs.Run.{IsPlaced, to_boundary};
ghost use Rattle.outside_io.specs.Events.{text_of};
ghost use Rattle.run_log.specs.Slices.{Wanted, last_board, run_events};
ghost use Rattle.run_log.specs.OneList.{run_list, text_of_lists};

/// The four lists of records that a run makes are, by clock and part, the one list of its records,
/// as the board makes them one clock at a time: their texts are the same. It states a law, and does
/// nothing.
#[tactic(auto, using(crate::proofs::OneListLaws::one_list_laws))]
pub fn log_is_one_list()
    ensures { (entries : List TapeEntry) → (limit : ℕ) → (b : Board) → HasNoRecords b
        → text_of_lists (to_boundary entries limit b) ≡ log_text (run_list entries limit b) }
{}

/// Cutting a run changes nothing in its text, with the same number of device calls, and nothing in
/// its last board. It states a law, and does nothing.
#[tactic(auto, using(crate::proofs::WholeLaws::cut_laws))]
pub fn cuts_leave_the_run()
    ensures text { (entries : List TapeEntry) → (limit : ℕ) → (wanted : Wanted) → (calls : ℕ) → (cuts : List ℕ) → (b : Board) → IsPlaced b
        → text_of (run_events entries limit wanted calls cuts b) ≡ text_of (run_events entries limit wanted calls [] b) }
    ensures board { (entries : List TapeEntry) → (limit : ℕ) → (cuts : List ℕ) → (b : Board) → IsPlaced b
        → last_board entries limit cuts b ≡ to_boundary entries limit b }
{}
