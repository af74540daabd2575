ghost use Rattle.std.specs.Prelude.{◌≡◌, IfOk};
ghost use Rattle.workload_gen.specs.Draws.{draws_of};
ghost use Rattle.workload_gen.specs.Tape.{drawn_port, entries_from};

use crate::draws::Draws;
use board_base::OutOfMemory;
use std::alloc::Global;
use tape_ports::{Port, TapeEntry};

/// The ports, in their order.
const PORTS: [Port; 19] = [
    Port::In0,
    Port::In3,
    Port::In4,
    Port::Pot1(0),
    Port::Pot1(1),
    Port::Pot1(2),
    Port::Pot1(3),
    Port::Pot1(4),
    Port::Pot1(5),
    Port::Pot1(6),
    Port::Pot1(7),
    Port::Pot2(0),
    Port::Pot2(1),
    Port::Pot2(2),
    Port::Pot2(3),
    Port::Pot2(4),
    Port::Pot2(5),
    Port::Pot2(6),
    Port::Pot2(7),
];

/// The entries of the tape.
const ENTRIES: u64 = 200;

/// The clocks from one entry to the next; the first comes as many after power-on.
const ENTRY_CLOCKS: u64 = 100_000;

/// The port that a draw chooses.
fn drawn_port(draw: u16) -> Port
    ensures { result ≡ drawn_port draw }
{
    PORTS[draw as usize % PORTS.len()]
}

/// The entries of the tape, each with the next two draws: its port, and then its value.
#[tactic(auto, using(crate::proofs::TapeLaws::steps))]
pub fn tape_entries(alloc: Global, draws: &mut Draws) -> Result<Vec<TapeEntry>, OutOfMemory>
    ensures { IfOk result (λ made. made.items ≡ entries_from 1 (draws_of draws.old 400)) }
{
    let mut entries = Vec::new(alloc);
    'entries: for k in 1..=ENTRIES {
        let port = drawn_port(draws.draw());
        let value = (draws.draw() % 256) as u8;
        let clock = ENTRY_CLOCKS * k;
        entries.push(TapeEntry { clock, port, value })?;
    }
    Ok(entries)
}
