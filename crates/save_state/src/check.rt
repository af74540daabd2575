ghost use Rattle.std.specs.Prelude.{◌+◌, ◌≤◌, ◌↔◌, ◌==◌, IsTrue, ℕ, List, MatchResult, All, false, take, drop, slice_index};
ghost use Rattle.save_state.specs.Fields.{IsInFieldRange};
ghost use Rattle.board_base.specs.Board.{BoardValue};
ghost use Rattle.save_state.specs.Fields.{Row};
ghost use Rattle.save_state.specs.StateBytes.{processor_of, facts_of, bytes_range, front_rows, middle_rows, back_rows, table};
ghost use Rattle.save_state.specs.Reading.{Holds, BreaksFirst};
ghost use Rattle.save_state.specs.Check.{width_of, IsInRange, AreSame, IsAnswer};

use crate::STATE_LEN;
use crate::board::{MEMORY, PORTS, ZEROS};
use crate::bytes::{Field, Kind, array_at, byte_at, i32_at, u16_at, u32_at, u64_at};
use crate::divider::DIVIDER;
use crate::earom::EAROM;
use crate::pokey::POKEY;
use crate::processor::{NO_PLACE, PLACE, PROCESSOR, decode_processor};
use crate::vg::GENERATOR;
use board_base::board::CLOCK_LIMIT;
use board_base::phase::DRAW;
use cpu_core::is_middle;
use cpu_table::entry;

/// Whether a field of this kind, at an offset of a file of a version, is in its range.
fn is_in_range(version: u8, file: &[u8; STATE_LEN], at: usize, kind: Kind) -> bool
    requires { at + width_of kind ≤ STATE_LEN }
    ensures { IsTrue result ↔ IsInRange version file.now at kind }
{
    let jammed = file[19] == 1;
    let sequence = file[30];
    match kind {
        Kind::Any(_) => true,
        Kind::Byte(greatest) => byte_at(file, at) <= greatest,
        Kind::Word(greatest) => u16_at(file, at) <= greatest,
        Kind::Long(greatest) => u32_at(file, at) <= greatest,
        Kind::Count(greatest) => (1..=greatest).contains(&u32_at(file, at)),
        Kind::Signed(greatest) => i32_at(file, at).unsigned_abs() <= greatest,
        Kind::Letters => array_at(file, at) == *b"GVS",
        Kind::Flags => byte_at(file, at) / 16 % 4 == 0,
        Kind::Clock if version == 1 || sequence == 0 => u64_at(file, at) <= CLOCK_LIMIT + 16,
        Kind::Clock => u64_at(file, at) <= CLOCK_LIMIT,
        Kind::JamOpcode if jammed => entry(byte_at(file, at)).is_none(),
        Kind::JamOpcode => byte_at(file, at) == 0,
        Kind::SequenceNumber => byte_at(file, at) <= if jammed { 0 } else { 3 },
        Kind::ClocksDone if sequence == 0 => byte_at(file, at) == 0,
        Kind::ClocksDone => (1..=6).contains(&byte_at(file, at)),
        Kind::ClocksLeft if file[45] == DRAW => (1..=8192).contains(&u16_at(file, at)),
        Kind::ClocksLeft => u16_at(file, at) == 0,
    }
}

/// Checks the fields of a table at the offset `base`. The error is the offset of the first bad one.
fn check(version: u8, file: &[u8; STATE_LEN], base: usize, fields: &[Field]) -> Result<(), usize>
    requires { All (λ f. base + f.0 + width_of f.1 ≤ STATE_LEN) fields.now }
    ensures { (rows : List (Row BoardValue)) → AreSame (facts_of version file.now) base fields.now rows → IsAnswer version file.now rows result }
{
    for &Field(at, kind) in fields {
        if !is_in_range(version, file, base + at, kind) {
            return Err(base + at);
        }
    }
    Ok(())
}

/// Whether the bytes of a sequence's clocks are 0 outside every sequence, and such that the
/// processor can stand there inside one.
fn is_place(file: &[u8; STATE_LEN]) -> bool
    requires front { (version : ℕ) × All (Holds version file.now) (front_rows version) }
    requires count { slice_index file.now 31 ≤ 6 }
    ensures { IsTrue result ↔ IsInFieldRange (processor_of file.now) (bytes_range (slice_index file.now 30 == 0)) (take 6 (drop 32 file.now)) }
{
    if file[30] == 0 {
        array_at(file, 32) == [0; 6]
    } else {
        is_middle(&decode_processor(file))
    }
}

/// Checks the fields up to the place inside a sequence.
fn check_front(version: u8, file: &[u8; STATE_LEN]) -> Result<(), usize>
    ensures { IsAnswer version file.now (front_rows version) result }
{
    check(version, file, 0, &PROCESSOR)
        .and(check(version, file, 0, &PORTS))
        .and(check(version, file, 0, &DIVIDER))
}

/// Checks the place inside a sequence.
fn check_place(version: u8, file: &[u8; STATE_LEN]) -> Result<(), usize>
    requires { All (Holds version file.now) (front_rows version) }
    ensures { IsAnswer version file.now (middle_rows false) result }
{
    check(version, file, 0, &PLACE)?;
    if !is_place(file) {
        return Err(32);
    }
    Ok(())
}

/// Checks the place inside a sequence, which version 1 doesn't have.
fn check_middle(version: u8, file: &[u8; STATE_LEN]) -> Result<(), usize>
    requires { All (Holds version file.now) (front_rows version) }
    ensures { IsAnswer version file.now (middle_rows (version == 1)) result }
{
    if version == 1 {
        check(version, file, 0, &NO_PLACE)
    } else {
        check_place(version, file)
    }
}

/// Checks the fields after the place inside a sequence.
fn check_back(version: u8, file: &[u8; STATE_LEN]) -> Result<(), usize>
    ensures { IsAnswer version file.now back_rows result }
{
    check(version, file, 0, &ZEROS)
        .and(check(version, file, 0, &GENERATOR))
        .and(check(version, file, 84, &POKEY))
        .and(check(version, file, 137, &POKEY))
        .and(check(version, file, 0, &EAROM))
        .and(check(version, file, 0, &MEMORY))
}

/// Checks all fields of a file. The error is the offset of the first that is out of its range.
pub fn first_fault(version: u8, file: &[u8; STATE_LEN]) -> Result<(), usize>
    ensures { MatchResult result (λ _. All (Holds version file.now) (table version)) (λ at. BreaksFirst version file.now at) }
{
    check_front(version, file)?;
    check_middle(version, file).and(check_back(version, file))
}
