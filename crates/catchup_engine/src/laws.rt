//! The numbers of this crate.
ghost use Rattle.std.specs.Prelude.{◌≡◌};
ghost use Rattle.catchup_engine.specs.declared.bus.TheConstants.{PROGRAM_START, TRAIL_ROOM, MAX_SEQUENCE_CLOCKS};
ghost use Rattle.catchup_engine.specs.declared.bus.events.TheConstants.{WRAP, ENTRY};

/// States the numbers that the clauses of this crate use by name: the records that each trail has
/// room for, the most clocks of a sequence, the names of the two deadlines, and where the program
/// ROM begins.
pub fn engine_numbers()
    ensures trail_room { TRAIL_ROOM ≡ 6160 }
    ensures whole { MAX_SEQUENCE_CLOCKS ≡ 7 }
    ensures wrap { WRAP ≡ 0 }
    ensures entry { ENTRY ≡ 1 }
    ensures program_start { PROGRAM_START ≡ 0x9000 }
{}
