//! Small programs, the words of a command, and an engine.
ghost use Rattle.std.specs.Prelude.{◌≡◌, IfOk};
ghost use Rattle.lockstep_board.specs.Order.{HasNoRecords};

use avg_device::FastVg;
use board_base::{BoardState, Sequence};
use catchup_engine::{Access, Devices, Engine, Trace};
use earom_cells::Earom;
use gravitar_commands::Words;
use irq_watchdog::Divider;
use outside_io::MemoryShelf;
use pokey_chip::FastPokey;
use rom_image::{IMAGE_LEN, Image};
use std::alloc::{AllocError, Global};
use std::test::Fail;
use tape_ports::Tape;

/// The store of 05 in the latch, and a jump to itself.
pub(crate) const LATCH: &[u8] = &[0xA9, 0x05, 0x8D, 0x00, 0x88, 0x4C, 0x05, 0x90];

/// An undocumented opcode.
pub(crate) const JAM: &[u8] = &[0x02];

/// The write of 8840 and a jump to itself: seven clocks of the reset, STA in 7 to 10, JMP in 11 to
/// 13, 14 to 16 and so on.
pub(crate) const GO: &[u8] = &[0x8D, 0x40, 0x88, 0x4C, 0x03, 0x90];

pub(crate) type FastEngine = Engine<FastVg, FastPokey, Earom, Divider>;

/// Puts bytes in the place of those from an offset on.
fn overwrite(bytes: &mut Vec<u8>, at: usize, part: &[u8]) {
    for (i, byte) in part.iter().enumerate() {
        if let Some(place) = bytes.get_mut(at.wrapping_add(i)) {
            *place = *byte;
        }
    }
}

/// An image with a program at 9000, the reset vector 9000, and zeros.
pub(crate) fn program_image(alloc: Global, program: &[u8]) -> Result<Vec<u8>, AllocError> {
    let mut image = vec![in alloc; 0u8; IMAGE_LEN]?;
    overwrite(&mut image, 0x3800, program);
    overwrite(&mut image, 0xA7FC, &[0x00, 0x90]);
    Ok(image)
}

/// The words of a line, by its single spaces.
pub(crate) fn words_of(alloc: Global, line: &str) -> Result<Words, Fail> {
    let mut words = Words::new(alloc);
    for word in line.split(' ') {
        words.push(word)?;
    }
    Ok(words)
}

/// The most bytes of a file with its name.
pub(crate) const FILE: usize = 44_000;

/// An image under `i` and a tape under `t`.
pub(crate) fn files(alloc: Global, image: &[u8], tape: &[u8]) -> Result<MemoryShelf, Fail> {
    let mut shelf = MemoryShelf::new(alloc, 4, FILE, &[])?;
    shelf.put("i", image)?;
    shelf.put("t", tape)?;
    Ok(shelf)
}

/// An engine at power-on, over the image of a program.
pub(crate) fn engine_of(alloc: Global, program: &[u8]) -> Result<FastEngine, Fail>
    ensures settled { IfOk result (λ engine. engine.lagging ≡ 0) }
    ensures empty { IfOk result (λ engine. HasNoRecords engine.board) }
    ensures clock { IfOk result (λ engine. engine.board.peripherals.clock ≡ 0) }
{
    let image = program_image(alloc, program)?;
    let image = Image::read(alloc, &image)?;
    let board = BoardState::power_on();
    Ok(Engine::new(alloc, &image, &board, Devices::fast(), false)?)
}

/// A tape without entries.
pub(crate) fn empty_tape(alloc: Global) -> Result<Tape, Fail> {
    Ok(Tape::new(alloc, &[], 0)?)
}

/// A read.
fn read(clock: u64, addr: u16, value: u8) -> Access {
    Access {
        clock,
        addr,
        value,
        write: false,
    }
}

/// What the write of 8840 does: in the clocks 7 to 9 it reads its opcode and its address, and in
/// clock 10 it writes A, which is 0 at power-on.
pub(crate) fn trace_of_the_write() -> Trace {
    let none = read(0, 0, 0);
    let write = Access {
        write: true,
        ..read(10, 0x8840, 0)
    };
    Trace {
        sequence: Sequence::Opcode,
        opcode: 0x8D,
        count: 4,
        accesses: [
            read(7, 0x9000, 0x8D),
            read(8, 0x9001, 0x40),
            read(9, 0x9002, 0x88),
            write,
            none,
            none,
            none,
        ],
    }
}
