ghost use Rattle.std.specs.Prelude.{◌+◌, ◌≤◌};

use avg_device::{FastVg, PlainVg, VectorUnit};
use board_base::{CLOCK_END, Clocked, PowerOn, Record, Trail, VectorMemory, VgState};
use std::alloc::Global;
use std::process::Abort;
use std::test::Fail;

/// A memory with these words from address 0 on, and else 0.
fn memory_of(rt: &(impl Abort + Alloc<A = Global>), words: &[u16]) -> Result<VectorMemory, Fail> {
    let mut memory = VectorMemory::new(rt.alloc(), &[0; 14336])?;
    put_words(&mut memory, words);
    Ok(memory)
}

/// Writes words from address 0 on, as far as the RAM goes.
fn put_words(memory: &mut VectorMemory, words: &[u16]) {
    for (k, word) in words.iter().enumerate() {
        if k < 1024 {
            let [low, high] = word.to_le_bytes();
            memory.put(2 * k as u16, low);
            memory.put(2 * k as u16 + 1, high);
        }
    }
}

/// The stroke of a vector from the middle, drawn at the full scale.
fn stroke(clock: u64, x1: i32) -> Record {
    Record::Stroke {
        clock,
        x0: 0,
        y0: 0,
        x1,
        y1: 0,
        colour: 0,
        intensity: 14,
    }
}

/// Moves by some clocks, and looks at the strokes.
fn draws<V: VectorUnit>(
    rt: &(impl Abort + Alloc<A = Global>),
    unit: &mut V,
    memory: &VectorMemory,
    from: u64,
    n: u64,
    strokes: &[Record],
) -> Result<(), Fail>
    requires few { n ≤ 9000 }
    requires clocks { from + n ≤ CLOCK_END }
{
    let mut trail = Trail::new(rt.alloc(), 9000)?;
    unit.advance(memory, from, n, &mut trail);
    assert_eq!(rt; trail.records(), strokes);
    Ok(())
}

/// A word is read and done once its clocks have come.
fn fetches<V: VectorUnit>(rt: &(impl Abort + Alloc<A = Global>), mut unit: V) -> Result<(), Fail> {
    let memory = memory_of(rt, &[0xE000])?;
    unit.go();
    draws(rt, &mut unit, &memory, 0, 6000, &[])?;
    assert_eq!(rt; unit.state().phase, 0);
    draws(rt, &mut unit, &memory, 6000, 1, &[])?;
    assert_eq!(rt; (unit.state().phase, unit.state().pc), (1, 0));
    Ok(())
}

/// A draw of 8,192 clocks gives its stroke with the last of them.
fn draws_to_the_end<V: VectorUnit>(
    rt: &(impl Abort + Alloc<A = Global>),
    mut unit: V,
) -> Result<(), Fail> {
    let memory = memory_of(rt, &[0x0000, 0xF000, 0x2000])?;
    unit.go();
    draws(rt, &mut unit, &memory, 0, 8196, &[])?;
    assert_eq!(rt; unit.state().left, 1);
    draws(
        rt,
        &mut unit,
        &memory,
        8196,
        1,
        &[stroke(8196, -134_217_728)],
    )
}

/// A draw that is abandoned in its last clock gives none.
fn abandons_a_draw<V: VectorUnit>(
    rt: &(impl Abort + Alloc<A = Global>),
    mut unit: V,
) -> Result<(), Fail> {
    let memory = memory_of(rt, &[0x0000, 0xF000, 0x2000])?;
    unit.go();
    draws(rt, &mut unit, &memory, 0, 8196, &[])?;
    unit.go();
    draws(rt, &mut unit, &memory, 8196, 1, &[])?;
    assert_eq!(rt;
        (unit.state().x, unit.state().phase, unit.halted()),
        (0, 1, false)
    );
    Ok(())
}

#[test]
fn strokes_come_with_the_last_clock_of_a_draw(rt: HostRuntime) -> Result<(), Fail> {
    fetches(&rt, PlainVg::new())?;
    fetches(&rt, FastVg::new())?;
    draws_to_the_end(&rt, PlainVg::new())?;
    draws_to_the_end(&rt, FastVg::new())?;
    abandons_a_draw(&rt, PlainVg::new())?;
    abandons_a_draw(&rt, FastVg::new())
}

#[test]
fn a_halt_of_any_length_is_one_step(rt: HostRuntime) -> Result<(), Fail> {
    let memory = memory_of(&rt, &[0x40E1])?;
    let mut trail = Trail::new(rt.alloc(), 6000)?;
    let mut unit = FastVg::new();
    for step in 0..20_000_000u64 {
        trail.clear();
        unit.advance(&memory, 6000 * step, 6000, &mut trail);
    }
    assert_eq!(rt; unit.state(), VgState::power_on());
    assert_eq!(rt; (unit.calls(), trail.records().len()), (20_000_000, 0));
    Ok(())
}
