use board_base::{OutOfMemory, Record, Trail, VectorMemory};

const LATCH: Record = Record::Latch {
    clock: 12,
    value: 5,
};

const RESET: Record = Record::WatchdogReset { clock: 49151 };

#[test]
fn a_trail_takes_records_in_order_and_begins_again(rt: HostRuntime) -> Result<(), OutOfMemory> {
    let mut trail = Trail::new(rt.alloc(), 2)?;
    assert!(rt; trail.records().is_empty());
    trail.push(LATCH);
    trail.push(RESET);
    assert_eq!(rt; trail.records(), [LATCH, RESET].as_slice());
    trail.clear();
    trail.push(RESET);
    assert_eq!(rt; trail.records(), [RESET].as_slice());
    Ok(())
}

#[test]
fn a_vector_memory_has_its_ram_before_its_rom(rt: HostRuntime) -> Result<(), OutOfMemory> {
    let mut memory = VectorMemory::new(rt.alloc(), &[0x5A; 14336])?;
    assert_eq!(rt; memory.byte(2047), 0);
    assert_eq!(rt; memory.byte(2048), 0x5A);
    assert_eq!(rt; memory.byte(16383), 0x5A);
    memory.put(2047, 7);
    assert_eq!(rt; memory.byte(2046), 0);
    assert_eq!(rt; memory.byte(2047), 7);
    memory.load_ram(&[9; 2048]);
    assert_eq!(rt; memory.byte(0), 9);
    assert_eq!(rt; memory.byte(2047), 9);
    assert_eq!(rt; memory.byte(2048), 0x5A);
    assert_eq!(rt; memory.ram(), [9; 2048].as_slice());
    Ok(())
}
