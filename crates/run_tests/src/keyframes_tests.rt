ghost use Rattle.std.specs.Prelude.{◌≡◌, ◌<◌};

use crate::programs::{GO, empty_tape, engine_of};
use board_base::{BoardState, OutOfMemory};
use keyframes::{Keyframes, keep_start, seek};
use std::test::Fail;

/// The board at power-on, at another clock and with another first byte of its RAM.
fn board(clock: u64, byte: u8) -> BoardState
    requires { clock < 1000 }
    ensures { result.clock ≡ clock }
{
    let mut state = BoardState::power_on();
    state.clock = clock;
    state.ram[0] = byte;
    state
}

#[test]
fn a_third_board_thins_the_first_two(rt: HostRuntime) -> Result<(), OutOfMemory> {
    let mut keys = Keyframes::new(rt.alloc(), 32, 8)?;
    keys.keep(&board(0, 1));
    assert_eq!(rt; keys.live(), 16);
    keys.keep(&board(10, 2));
    assert_eq!(rt; keys.live(), 17);
    keys.keep(&board(20, 3));
    assert_eq!(rt; keys.live(), 17);
    assert_eq!(rt; keys.len(), 2);
    assert_eq!(rt; keys.clock_of(0), 0);
    assert_eq!(rt; keys.clock_of(1), 20);
    assert_eq!(rt; keys.nearest(19), Some(0));
    assert_eq!(rt; keys.nearest(20), Some(1));
    let mut read = BoardState::power_on();
    keys.board(1, &mut read);
    assert!(rt; read == board(20, 3));
    keys.board(0, &mut read);
    assert!(rt; read == board(0, 1));
    keys.clear();
    assert_eq!(rt; keys.len(), 0);
    assert_eq!(rt; keys.live(), 0);
    Ok(())
}

#[test]
fn a_clock_inside_a_jump_is_sought_and_one_before_it(rt: HostRuntime) -> Result<(), Fail> {
    let mut engine = engine_of(rt.alloc(), GO)?;
    let tape = empty_tape(rt.alloc())?;
    let mut keys = Keyframes::new(rt.alloc(), 64, 8)?;
    keep_start(&mut keys, &BoardState::power_on());
    // The jump begins in clock 11, so that one of its accesses is made before clock 12.
    seek(&mut engine, &mut keys, &tape, 12, 5);
    assert_eq!(rt; engine.clock(), 12);
    let Some(mid) = engine.cpu().mid else {
        return Err(Fail::new("at a boundary"));
    };
    assert_eq!(rt; (mid.count, mid.bytes[0]), (1, 0x4C));
    // The boards of the clocks 0, 5 and 10.
    assert_eq!(rt;
        (keys.len(), keys.nearest(9), keys.nearest(12)),
        (3, Some(1), Some(2))
    );
    // Before clock 7 the reset is done, and nothing else.
    seek(&mut engine, &mut keys, &tape, 7, 5);
    assert_eq!(rt; engine.clock(), 7);
    assert!(rt; engine.cpu().mid.is_none());
    assert_eq!(rt; (engine.cpu().pc, keys.len()), (0x9000, 3));
    Ok(())
}
