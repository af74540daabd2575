use board_base::{EaromState, PowerOn};
use earom_cells::{CellUnit, Earom};

/// An EAROM whose cells are all F0, with 3C latched for cell 5.
fn latched() -> Earom {
    let mut state = EaromState::power_on();
    state.cells = [0xF0; 64];
    let mut earom = Earom::new();
    earom.load(&state);
    earom.latch(5, 0x3C);
    earom
}

#[test]
fn a_falling_clock_reads_the_addressed_cell(rt: HostRuntime) {
    let mut earom = latched();
    assert_eq!(rt; earom.output(), 0xFF);
    earom.control(0x08);
    assert_eq!(rt; earom.output(), 0xFF);
    earom.control(0x09);
    assert_eq!(rt; earom.output(), 0xFF);
    earom.control(0x18);
    assert_eq!(rt; (earom.output(), earom.state().control), (0xF0, 0x08));
}
