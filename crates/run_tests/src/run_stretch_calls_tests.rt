//! The calls of the library for C, over bytes as a caller has them.

use crate::programs::{LATCH, program_image};
use run_stretch::calls::{GravitarReport, advance, assemble, pcm, power_on, records};
use std::test::Fail;

/// A report that no call has set.
const UNSET: GravitarReport = GravitarReport {
    clock: 7,
    used: 7,
    place: 7,
};

#[test]
fn a_call_runs_the_board_of_its_bytes(rt: HostRuntime) -> Result<(), Fail> {
    let image = program_image(rt.alloc(), LATCH)?;
    let mut board = [0; 4_356];
    assert_eq!(rt; power_on(&mut board), 0);
    let mut text = [0; 8];
    let mut report = UNSET;
    let tape = b"20 END\n";
    let status = advance(
        rt.alloc(),
        &image,
        &mut board,
        tape,
        20,
        0,
        0,
        &mut text,
        &mut report,
    );
    assert_eq!(rt;
        (status, report.clock, report.used, report.place),
        (0, 20, 8, 0)
    );
    assert!(rt; text == *b"L 12 05\n");
    Ok(())
}

#[test]
fn a_record_has_40_bytes(rt: HostRuntime) -> Result<(), Fail> {
    let image = program_image(rt.alloc(), LATCH)?;
    let mut board = [0; 4_356];
    assert_eq!(rt; power_on(&mut board), 0);
    let mut array = [7; 40];
    let mut report = UNSET;
    let status = records(
        rt.alloc(),
        &image,
        &mut board,
        b"20 END\n",
        20,
        0,
        0,
        &mut array,
        &mut report,
    );
    assert_eq!(rt; (status, report.clock, report.used), (0, 20, 40));
    let mut wanted = [0; 40];
    wanted[0] = 12;
    wanted[8] = 3;
    wanted[12] = 5;
    assert!(rt; array == wanted);
    Ok(())
}

#[test]
fn a_refused_call_leaves_the_board(rt: HostRuntime) -> Result<(), Fail> {
    let image = program_image(rt.alloc(), LATCH)?;
    let mut board = [0; 4_356];
    assert_eq!(rt; power_on(&mut board), 0);
    let before = board;
    let mut text = [0; 8];
    let mut report = UNSET;
    let status = advance(
        rt.alloc(),
        &image,
        &mut board,
        b"x",
        20,
        0,
        0,
        &mut text,
        &mut report,
    );
    assert_eq!(rt; (status, report.clock, report.place), (4, 0, 1));
    assert!(rt; board == before);
    Ok(())
}

#[test]
fn samples_are_given_where_there_is_room(rt: HostRuntime) -> Result<(), Fail> {
    let image = program_image(rt.alloc(), LATCH)?;
    let mut board = [0; 4_356];
    assert_eq!(rt; power_on(&mut board), 0);
    let mut samples = [7; 8];
    let mut report = UNSET;
    let tape = b"20 END\n";
    let status = pcm(
        rt.alloc(),
        &image,
        &mut board,
        tape,
        16,
        4,
        0,
        &mut samples,
        &mut report,
    );
    assert_eq!(rt; (status, report.clock, report.used), (6, 0, 16));
    let status = pcm(
        rt.alloc(),
        &image,
        &mut board,
        tape,
        8,
        4,
        0,
        &mut samples,
        &mut report,
    );
    assert_eq!(rt; (status, report.clock, report.used), (0, 9, 8));
    assert!(rt; samples == [0; 8]);
    Ok(())
}

#[test]
fn two_sources_are_assembled(rt: HostRuntime) -> Result<(), Fail> {
    let mut image = vec![in rt.alloc(); 7; 43_008]?;
    let mut note = [0; 40];
    let mut report = UNSET;
    let source = b" .org $9000\n lda #5\n";
    let status = assemble(rt.alloc(), source, b"", &mut image, &mut note, &mut report);
    assert_eq!(rt;
        (status, report.clock, report.used, report.place),
        (0, 0, 43_008, 0)
    );
    assert!(rt; image[0x3800..0x3803] == [0xA9, 0x05, 0x00]);
    let status = assemble(
        rt.alloc(),
        b"\n what\n",
        b"",
        &mut image,
        &mut note,
        &mut report,
    );
    assert_eq!(rt; (status, report.place), (8, 2));
    assert!(rt; image[0x3800..0x3803] == [0xA9, 0x05, 0x00]);
    Ok(())
}
