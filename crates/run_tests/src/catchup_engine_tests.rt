use crate::programs::{GO, empty_tape, engine_of, trace_of_the_write};
use board_base::{BoardState, Sequence};
use catchup_engine::{Devices, Engine, Stop, Trace};
use rom_image::Image;
use std::test::Fail;

#[test]
fn a_new_engine_has_made_five_calls(rt: HostRuntime) -> Result<(), Fail> {
    let mut image = Image::blank(rt.alloc())?;
    image.put(0x9000, 0xA9);
    let board = BoardState::power_on();
    let engine = Engine::new(rt.alloc(), &image, &board, Devices::fast(), true)?;
    assert!(rt; engine.is_settled());
    assert_eq!(rt; (engine.calls(), engine.done()), (5, 0));
    let devices = (engine.byte_at(0x6000), engine.byte_at(0x8900));
    assert_eq!(rt; devices, (None, None));
    let memory = (engine.byte_at(0x07FF), engine.byte_at(0x9000));
    assert_eq!(rt; memory, (Some(0), Some(0xA9)));
    Ok(())
}

#[test]
fn a_step_is_traced_to_its_last_access(rt: HostRuntime) -> Result<(), Fail> {
    let mut engine = engine_of(rt.alloc(), GO)?;
    let tape = empty_tape(rt.alloc())?;
    let mut trace = Trace::new();
    let stop = engine.trace_step(&tape, &mut trace);
    assert!(rt; stop == Stop::Limit);
    assert!(rt; trace.sequence == Sequence::Reset);
    // The last access of the reset reads the high byte of its vector.
    let last = trace.accesses[6];
    assert_eq!(rt; (trace.opcode, trace.count), (0, 7));
    assert_eq!(rt; (last.clock, last.addr, last.value), (6, 0xFFFD, 0x90));
    assert_eq!(rt; engine.clock(), 7);
    engine.settle();
    engine.clear_trails();
    engine.trace_step(&tape, &mut trace);
    assert!(rt; trace == trace_of_the_write());
    assert_eq!(rt; engine.clock(), 11);
    Ok(())
}
