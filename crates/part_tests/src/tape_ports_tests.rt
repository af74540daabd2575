use std::test::Fail;
use tape_ports::{Port, Tape, TapeEntry};

/// The entries of the tapes below.
const ENTRIES: [TapeEntry; 2] = [
    TapeEntry {
        clock: 5,
        port: Port::Pot1(7),
        value: 1,
    },
    TapeEntry {
        clock: 9,
        port: Port::In0,
        value: 0xAF,
    },
];

#[test]
fn a_tape_is_read(rt: HostRuntime) -> Result<(), Fail> {
    let tape = Tape::read(rt.alloc(), b"5 P7 01\n009 IN0 aF\n10 END")?;
    assert_eq!(rt; tape.entries(), ENTRIES.as_slice());
    assert_eq!(rt; tape.end(), 10);
    assert_eq!(rt; tape.first_from(6), 1);
    Ok(())
}

#[test]
fn a_tape_is_made_of_its_entries(rt: HostRuntime) -> Result<(), Fail> {
    let tape = Tape::new(rt.alloc(), &ENTRIES, 10)?;
    assert_eq!(rt; tape.entries(), ENTRIES.as_slice());
    assert_eq!(rt; tape.end(), 10);
    Ok(())
}
