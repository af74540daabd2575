//! Laws of the lockstep board, over all boards and tapes. Each function states one, and does
//! nothing.
ghost use Rattle.std.specs.Prelude.{◌≡◌, ℕ, ◌+◌, ◌*◌, ◌-◌, ◌≤◌, ◌<◌, List, [], ◌∷◌, All, true, false, None};
ghost use Rattle.board_base.specs.declared.divider.TheConstants.{DIVIDER_PERIOD};
ghost use Rattle.tape_ports.specs.declared.entry.TapeEntry.{TapeEntry};
ghost use Rattle.cpu_core.specs.BusCycles.{read_of, write_of};
ghost use Rattle.cpu_core.specs.Ranges.{IsByte};
ghost use Rattle.lockstep_board.specs.Addresses.{device_reads, device_writes, is_among};
ghost use Rattle.lockstep_board.specs.Lockstep.{Board, step, access_in};
ghost use Rattle.lockstep_board.specs.Ranges.{IsBoardInRange};
ghost use Rattle.lockstep_board.specs.Run.{stepped, boundary_steps, clock_steps, cut_steps, to_boundary, to_clock, to_cut, is_jammed, is_over, is_at, is_cut, IsPlaced};
ghost use Rattle.lockstep_board.specs.Breaks.{turn, turned, TurnsTo};
ghost use Rattle.lockstep_board.specs.Budget.{budget, counted, device_accesses, reaches_device, wraps, entries_applied, requests, resets_started};
ghost use Rattle.lockstep_board.specs.Order.{cleared, AddsOneClock, AreMadeBetween, Recorded, behind, records_of};
ghost use Rattle.lockstep_board.specs.Uses.{devices, devices_read, devices_written};

use crate::uses::{
    ALL_DEVICES, CELLS, DIVIDER, NO_DEVICE, SOUND1, SOUND2, VECTOR, VECTOR_AND_DIVIDER,
};
use board_map::{Reads, Writes};

/// A run of the lockstep board may be cut at any clock or boundary on its way and go on from there,
/// and each of the three runs comes to its end. It states a law, and does nothing.
#[tactic(auto, using(crate::proofs::Ends::splits))]
pub fn split_runs()
    ensures clock { (entries : List TapeEntry) → (x y : ℕ) → (b : Board) → x ≤ y → to_clock entries y b ≡ to_clock entries y (to_clock entries x b) }
    ensures boundary { (entries : List TapeEntry) → (x y : ℕ) → (b : Board) → x ≤ y → IsPlaced b
        → to_boundary entries y b ≡ to_boundary entries y (to_clock entries x b) }
    ensures boundaries { (entries : List TapeEntry) → (x y : ℕ) → (b : Board) → x ≤ y → IsPlaced b
        → to_boundary entries y b ≡ to_boundary entries y (to_boundary entries x b) }
    ensures cut { (entries : List TapeEntry) → (cut wrap : ℕ) → (b : Board) → to_clock entries cut b ≡ to_clock entries cut (to_cut entries cut wrap b) }
    ensures clock_end { (entries : List TapeEntry) → (cut : ℕ) → (b : Board) → is_at cut (to_clock entries cut b) ≡ true }
    ensures boundary_end { (entries : List TapeEntry) → (limit : ℕ) → (b : Board) → IsPlaced b → is_over limit (to_boundary entries limit b) ≡ true }
    ensures cut_end { (entries : List TapeEntry) → (cut wrap : ℕ) → (b : Board) → is_cut cut wrap (to_cut entries cut wrap b) ≡ true }
{}

/// The two parts of a run that is cut make as many steps as the whole of it. It states a law, and
/// does nothing.
#[tactic(auto, using(crate::proofs::Ends::split_steps))]
pub fn steps_of_split_runs()
    ensures clock { (entries : List TapeEntry) → (x y : ℕ) → (b : Board) → x ≤ y
        → clock_steps entries y b ≡ clock_steps entries x b + clock_steps entries y (to_clock entries x b) }
    ensures boundary { (entries : List TapeEntry) → (x y : ℕ) → (b : Board) → x ≤ y → IsPlaced b
        → boundary_steps entries y b ≡ clock_steps entries x b + boundary_steps entries y (to_clock entries x b) }
    ensures boundaries { (entries : List TapeEntry) → (x y : ℕ) → (b : Board) → x ≤ y → IsPlaced b
        → boundary_steps entries y b ≡ boundary_steps entries x b + boundary_steps entries y (to_boundary entries x b) }
    ensures cut { (entries : List TapeEntry) → (cut wrap : ℕ) → (b : Board)
        → clock_steps entries cut b ≡ cut_steps entries cut wrap b + clock_steps entries cut (to_cut entries cut wrap b) }
{}

/// After a step at least one access is made inside a sequence, and the runs keep it so. It states a
/// law, and does nothing.
#[tactic(auto, using(crate::proofs::Places::places))]
pub fn places_of_runs()
    ensures step { (entries : List TapeEntry) → (b : Board) → IsPlaced (step entries b) }
    ensures clock { (entries : List TapeEntry) → (cut : ℕ) → (b : Board) → IsPlaced b → IsPlaced (to_clock entries cut b) }
    ensures boundary { (entries : List TapeEntry) → (limit : ℕ) → (b : Board) → IsPlaced b → IsPlaced (to_boundary entries limit b) }
    ensures cut { (entries : List TapeEntry) → (cut wrap : ℕ) → (b : Board) → IsPlaced b → IsPlaced (to_cut entries cut wrap b) }
{}

/// A run to a boundary is so many turns, before each of which it isn't over. The turn of a board
/// that isn't jammed moves its clock on and ends at a boundary, and a jammed one stays as it is;
/// turns add to the records made before. It states a law, and does nothing.
#[tactic(auto, using(crate::proofs::TurnLaws::turn_laws))]
pub fn runs_are_turns()
    ensures runs { (entries : List TapeEntry) → (limit : ℕ) → (b : Board) → IsPlaced b → TurnsTo entries limit b }
    ensures later { (entries : List TapeEntry) → (b : Board) → b.cpu.jam ≡ None → b.peripherals.clock < (turn entries b).peripherals.clock }
    ensures boundary { (entries : List TapeEntry) → (b : Board) → IsPlaced b → b.cpu.jam ≡ None → (turn entries b).cpu.mid ≡ None }
    ensures jammed { (entries : List TapeEntry) → (b : Board) → is_jammed b ≡ true → turn entries b ≡ b }
    ensures records { (entries : List TapeEntry) → (n : ℕ) → (l : Recorded) → (b : Board) → turned entries n (behind l b) ≡ behind l (turned entries n b) }
    ensures place { (entries : List TapeEntry) → (n : ℕ) → (b : Board) → IsPlaced b → IsPlaced (turned entries n b) }
{}

/// Records made before change nothing that a board does: its runs add to them. It states a law, and
/// does nothing.
#[tactic(auto, using(crate::proofs::Behind::behinds))]
pub fn earlier_records()
    ensures clock { (entries : List TapeEntry) → (cut : ℕ) → (l : Recorded) → (b : Board) → to_clock entries cut (behind l b) ≡ behind l (to_clock entries cut b) }
    ensures boundary { (entries : List TapeEntry) → (limit : ℕ) → (l : Recorded) → (b : Board)
        → to_boundary entries limit (behind l b) ≡ behind l (to_boundary entries limit b) }
    ensures cut { (entries : List TapeEntry) → (cut wrap : ℕ) → (l : Recorded) → (b : Board)
        → to_cut entries cut wrap (behind l b) ≡ behind l (to_cut entries cut wrap b) }
    ensures access { (entries : List TapeEntry) → (l : Recorded) → (b : Board) → access_in entries (behind l b) ≡ access_in entries b }
    ensures calls { (entries : List TapeEntry) → (n : ℕ) → (l : Recorded) → (b : Board) → budget entries n (behind l b) ≡ budget entries n b }
    ensures cleared { (b : Board) → behind (records_of b) (cleared b) ≡ b }
{}

/// A step adds to each part's records one at most, which is of its kind and of the clock of the
/// step, and each of the three runs keeps the records in the order of their clocks. It states a
/// law, and does nothing.
#[tactic(auto, using(crate::proofs::InOrder::orders))]
pub fn one_record_of_each_part()
    ensures step { (entries : List TapeEntry) → (b : Board) → AddsOneClock entries b }
    ensures clock { (entries : List TapeEntry) → (from cut : ℕ) → (b : Board) → AreMadeBetween from (records_of b) b.peripherals.clock
        → AreMadeBetween from (records_of (to_clock entries cut b)) (to_clock entries cut b).peripherals.clock }
    ensures boundary { (entries : List TapeEntry) → (from limit : ℕ) → (b : Board) → AreMadeBetween from (records_of b) b.peripherals.clock
        → AreMadeBetween from (records_of (to_boundary entries limit b)) (to_boundary entries limit b).peripherals.clock }
    ensures cut { (entries : List TapeEntry) → (from cut wrap : ℕ) → (b : Board) → AreMadeBetween from (records_of b) b.peripherals.clock
        → AreMadeBetween from (records_of (to_cut entries cut wrap b)) (to_cut entries cut wrap b).peripherals.clock }
{}

/// The device calls that a run may cost are two for each device access, and five for each wrap,
/// entry, request and reset; and what some clocks and then others may cost adds up. It states a
/// law, and does nothing.
#[tactic(auto, using(crate::proofs::Budgets::budgets))]
pub fn budget_in_parts()
    ensures parts { (entries : List TapeEntry) → (n : ℕ) → (b : Board)
        → budget entries n b
        ≡ 2 * counted entries (device_accesses entries) n b
        + 5 * (counted entries (λ c. wraps c.peripherals) n b + counted entries (λ c. entries_applied entries c.peripherals) n b
        + counted entries (λ c. requests entries c.peripherals) n b + counted entries (resets_started entries) n b) }
    ensures sum { (entries : List TapeEntry) → (of_clock : Board → ℕ) → (n m : ℕ) → (b : Board)
        → counted entries of_clock (n + m) b ≡ counted entries of_clock n b + counted entries of_clock m (stepped entries n b) }
    ensures more { (entries : List TapeEntry) → (n m : ℕ) → (b : Board)
        → budget entries (n + m) b ≡ budget entries n b + budget entries m (stepped entries n b) }
{}

/// A run that comes to the divider's wrap has counted it, and the phase stays below its period. It
/// states a law, and does nothing.
#[tactic(auto, using(crate::proofs::Wraps::wrap_laws))]
pub fn wraps_are_counted()
    ensures phase { (entries : List TapeEntry) → (n : ℕ) → (b : Board) → b.peripherals.divider.phase < DIVIDER_PERIOD
        → (stepped entries n b).peripherals.divider.phase < DIVIDER_PERIOD }
    ensures wrap { (entries : List TapeEntry) → (n : ℕ) → (b : Board) → b.peripherals.divider.phase < DIVIDER_PERIOD
        → DIVIDER_PERIOD - b.peripherals.divider.phase ≤ n → 1 ≤ counted entries (λ c. wraps c.peripherals) n b }
{}

/// A step keeps a board in its range, and so do some of them one after another: all that the types
/// of its parts say of it, and bytes where the board has bytes. It states a law, and does nothing.
#[tactic(auto, using(crate::proofs::BoardRange::in_range))]
pub fn steps_keep_range()
    ensures step { (entries : List TapeEntry) → (b : Board) → All (λ entry. IsByte entry.value) entries
        → IsBoardInRange b → IsBoardInRange (step entries b) }
    ensures steps { (entries : List TapeEntry) → (n : ℕ) → (b : Board) → All (λ entry. IsByte entry.value) entries
        → IsBoardInRange b → IsBoardInRange (stepped entries n b) }
{}

/// The addresses at which a read and a write reach a device; at no other does one. It states a law,
/// and does nothing.
#[tactic(auto, using(crate::proofs::AddressLaws::addresses))]
pub fn device_addresses()
    ensures reads { (address value : ℕ) → reaches_device (read_of address value) ≡ is_among device_reads address }
    ensures writes { (address value : ℕ) → reaches_device (write_of address value) ≡ is_among device_writes address }
{}

/// The sets of devices, each by five truth values: the generator, POKEY 1, POKEY 2, the EAROM and
/// the divider. It states a law, and does nothing.
pub fn device_sets()
    ensures none { NO_DEVICE ≡ devices false false false false false }
    ensures all { ALL_DEVICES ≡ devices true true true true true }
    ensures vector { VECTOR ≡ devices true false false false false }
    ensures sound1 { SOUND1 ≡ devices false true false false false }
    ensures sound2 { SOUND2 ≡ devices false false true false false }
    ensures cells { CELLS ≡ devices false false false true false }
    ensures divider { DIVIDER ≡ devices false false false false true }
    ensures vector_and_divider { VECTOR_AND_DIVIDER ≡ devices true false false false true }
{}

/// The devices that give the byte of each read and see each write, each set by its five truth
/// values. It states a law, and does nothing.
pub fn devices_of_accesses()
    ensures read_sound1 { devices_read Reads.Sound1 ≡ devices false true false false false }
    ensures read_sound2 { devices_read Reads.Sound2 ≡ devices false false true false false }
    ensures read_earom_out { devices_read Reads.EaromOut ≡ devices false false false true false }
    ensures read_in0 { devices_read Reads.In0 ≡ devices true false false false true }
    ensures read_memories { All (λ reads. devices_read reads ≡ NO_DEVICE) (Reads.Ram ∷ Reads.VectorRam ∷ Reads.VectorRom ∷ Reads.ProgramRom ∷ []) }
    ensures read_others { All (λ reads. devices_read reads ≡ NO_DEVICE) (Reads.In3 ∷ Reads.In4 ∷ Reads.Open ∷ []) }
    ensures vector_ram { devices_written Writes.VectorRam ≡ devices true false false false false }
    ensures sound1 { devices_written Writes.Sound1 ≡ devices false true false false false }
    ensures sound2 { devices_written Writes.Sound2 ≡ devices false false true false false }
    ensures go { devices_written Writes.Go ≡ devices true false false false false }
    ensures vg_reset { devices_written Writes.VgReset ≡ devices true false false false false }
    ensures acknowledge { devices_written Writes.Acknowledge ≡ devices false false false false true }
    ensures earom_control { devices_written Writes.EaromControl ≡ devices false false false true false }
    ensures earom_latch { devices_written Writes.EaromLatch ≡ devices false false false true false }
    ensures watchdog_clear { devices_written Writes.WatchdogClear ≡ devices false false false false true }
    ensures others { All (λ writes. devices_written writes ≡ NO_DEVICE) (Writes.Ram ∷ Writes.OutputLatch ∷ Writes.Ignored ∷ []) }
{}
