ghost use Rattle.std.specs.Prelude.{◌≡◌, None};

use board_base::{CpuState, Sequence};
use cpu_core::{Bus, Cpu};
use flat_bus::{Direction, FlatBus, Logged, UnloggedBus};
use std::test::Fail;

/// A processor at 9000, with S at FD.
fn processor() -> Cpu
    ensures jam { result.jam ≡ None }
    ensures mid { result.mid ≡ None }
{
    Cpu::new(CpuState {
        pc: 0x9000,
        a: 0x35,
        x: 0,
        y: 0,
        s: 0xFD,
        p: 0,
        jam: None,
        mid: None,
    })
}

#[test]
fn a_bus_keeps_what_is_written_and_logs_each_access(rt: HostRuntime) -> Result<(), Fail> {
    let mut bus = FlatBus::new(rt.alloc(), 20)?;
    bus.load(0x9000, &[0x85, 0x10]);
    let mut cpu = processor();
    cpu.instruction(&mut bus, &());
    assert_eq!(rt; (bus.byte(0x0010), bus.room()), (0x35, 17));
    let expected = [
        (0, Direction::Read, 0x9000, 0x85),
        (1, Direction::Read, 0x9001, 0x10),
        (2, Direction::Write, 0x0010, 0x35),
    ];
    for (logged, (clock, direction, addr, byte)) in bus.log().iter().zip(expected) {
        let access = Logged {
            clock,
            direction,
            addr,
            byte,
        };
        assert_eq!(rt; *logged, access);
    }
    Ok(())
}

#[test]
fn an_interrupt_in_two_parts_comes_to_its_vector(rt: HostRuntime) -> Result<(), Fail> {
    let mut bus = FlatBus::new(rt.alloc(), 20)?;
    bus.load(0xFFFE, &[0x00, 0x91]);
    let mut cpu = processor();
    cpu.begin(Sequence::Interrupt, &mut bus, &(), 3);
    if cpu.state().mid.is_some() {
        cpu.resume(&mut bus, &(), 7);
    }
    assert_eq!(rt; (cpu.state().pc, bus.log().len()), (0x9100, 7));
    Ok(())
}

#[test]
fn a_bus_without_a_log_keeps_what_is_written(rt: HostRuntime) -> Result<(), Fail> {
    let mut bus = UnloggedBus::new(rt.alloc())?;
    bus.load(0x9000, &[0x85, 0x10]);
    let mut cpu = processor();
    cpu.instruction(&mut bus, &());
    assert_eq!(rt; (bus.read(&(), 0x0010), bus.read(&(), 0x0011)), (0x35, 0));
    Ok(())
}
