ghost use Rattle.std.specs.Prelude.{◌≡◌, IfOk};
ghost use Rattle.lockstep_board.specs.Order.{HasNoRecords};

use avg_device::FastVg;
use board_base::BoardState;
use catchup_engine::{Devices, Engine};
use earom_cells::Earom;
use irq_watchdog::Divider;
use outside_io::MemorySink;
use pokey_chip::FastPokey;
use rom_image::Image;
use run_summary::run_soak;
use run_windows::SyncedMachine;
use std::alloc::Global;
use std::test::Fail;
use tape_ports::Tape;

/// A long vector from the middle again and again, in the vector ROM.
const LONG_VECTOR: &str = "00 00 00 F0 00 80 00 E4";

/// A program, a limit, and the lines.
type Case = (&'static str, u64, &'static str);

/// Programs, in hexadecimal.
const CASES: [Case; 3] = [
    // A latch write and a short vector.
    (
        "A9 E1 8D 00 20 A9 40 8D 01 20 A9 20 8D 03 20 8D 00 88 8D 40 88 4C 15 90",
        40,
        "strokes 1\nlevels1 0\nlevels2 0\nlatches 1\nresets 0\nsum 14\nclock 42\n",
    ),
    // A steady level of POKEY 1 at clock 13, and one of POKEY 2 at clock 17.
    (
        "A9 15 8D 01 60 8D 01 68 4C 08 90",
        18,
        "strokes 0\nlevels1 1\nlevels2 1\nlatches 0\nresets 0\nsum 10\nclock 20\n",
    ),
    // Five strokes before a reset by the watchdog, some clocks before the limit.
    (
        "A9 E4 8D 01 20 8D 40 88 4C 08 90",
        50_000,
        "strokes 5\nlevels1 0\nlevels2 0\nlatches 0\nresets 1\nsum 70\nclock 50002\n",
    ),
];

type FastEngine = Engine<FastVg, FastPokey, Earom, Divider>;

/// Puts bytes in hexadecimal.
fn put_text(image: &mut Image, addr: u16, text: &str) {
    let mut at = addr;
    for word in text.split(' ') {
        if let Ok(byte) = u8::from_str_radix(word, 16) {
            if image.byte_at(at).is_some() {
                image.put(at, byte);
            }
            at = at.wrapping_add(1);
        }
    }
}

/// An engine at power-on, over an image with a program at 9000.
fn engine_of(alloc: Global, program: &str) -> Result<FastEngine, Fail>
    ensures settled { IfOk result (λ engine. engine.lagging ≡ 0) }
    ensures empty { IfOk result (λ engine. HasNoRecords engine.board) }
{
    let mut image = Image::blank(alloc)?;
    put_text(&mut image, 0x2800, LONG_VECTOR);
    put_text(&mut image, 0x9000, program);
    put_text(&mut image, 0xFFFC, "00 90");
    let board = BoardState::power_on();
    Ok(Engine::new(alloc, &image, &board, Devices::fast(), false)?)
}

/// A tape without entries.
fn empty_tape(alloc: Global) -> Result<Tape, Fail> {
    Ok(Tape::new(alloc, &[], 0)?)
}

#[test]
fn lines_tell_the_records_by_kind(rt: HostRuntime) -> Result<(), Fail> {
    let tape = empty_tape(rt.alloc())?;
    for (program, limit, lines) in CASES {
        let mut engine = engine_of(rt.alloc(), program)?;
        let mut out = MemorySink::new(rt.alloc(), 200, &[])?;
        let done = run_soak(
            &mut SyncedMachine::of(&mut engine),
            &tape,
            limit.min(90_000),
            &mut out,
        );
        assert_eq!(rt; done, Ok(()), "{program}");
        assert_eq!(rt; out.bytes(), lines.as_bytes(), "{program}");
    }
    Ok(())
}
