//! A command line as a call of plain bytes.

use crate::programs::{LATCH, program_image};
use command_calls::command;
use run_stretch::calls::GravitarReport;
use std::test::Fail;

#[test]
fn a_command_line_is_answered_over_its_files(rt: HostRuntime) -> Result<(), Fail> {
    let image = program_image(rt.alloc(), LATCH)?;
    let mut request = Vec::new(rt.alloc());
    for count in [3u64, 2] {
        request.extend_from_slice(&count.to_le_bytes())?;
    }
    for piece in [
        b"run".as_slice(),
        b"i",
        b"t",
        b"i",
        &image,
        b"t",
        b"20 END\n",
    ] {
        request.extend_from_slice(&(piece.len() as u64).to_le_bytes())?;
        request.extend_from_slice(piece)?;
    }
    let mut answer = [7; 46];
    let mut report = GravitarReport {
        clock: 7,
        used: 7,
        place: 7,
    };
    let status = command(rt.alloc(), &request, &mut answer, &mut report);
    assert_eq!(rt;
        (status, report.clock, report.used, report.place),
        (0, 0, 45, 0)
    );
    let mut wanted = [0; 46];
    wanted[8] = 13;
    for (place, byte) in wanted.iter_mut().skip(32).zip(b"L 12 05\nE 22\n\x07") {
        *place = *byte;
    }
    assert!(rt; answer == wanted);
    Ok(())
}
