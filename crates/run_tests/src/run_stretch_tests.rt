use rom_image::Image;
use run_stretch::{Start, StretchFault, advance, assemble, power_on, sample};
use run_windows::Until;

/// A store of 05 in the output latch, and a jump to itself: seven clocks of the reset, LDA in 7 and
/// 8, STA in 9 to 12, JMP in 13 to 15, 16 to 18 and 19 to 21.
const LATCH: &[u8] = b"        .org $9000
start:  lda #5
        sta $8800
self:   jmp self
        .org $FFFC
        .word start
";

/// A tone of POKEY 1, whose level is 5 in the clocks 19 to 22 and in clock 27.
const TONE: &[u8] = b"        .org $9000
start:  lda #$A5
        sta $6001
        lda #$40
        sta $6008
self:   jmp self
        .org $FFFC
        .word start
";

/// A start with an image, a board and a tape without entries.
fn start<'a>(image: &'a Image, board: &'a [u8]) -> Start<'a> {
    Start {
        image: image.bytes(),
        board,
        tape: b"28 END\n",
        timers: false,
    }
}

#[test]
fn a_run_is_done_in_two_stretches(rt: HostRuntime) -> Result<(), StretchFault> {
    let Ok(image) = assemble(rt.alloc(), LATCH, b"") else {
        return Err(StretchFault::NoMemory);
    };
    let board = power_on();
    let first = advance(rt.alloc(), start(&image, &board), Until::Clock(12), 0)?;
    assert_eq!(rt;
        (first.output.len(), first.clock, first.jammed),
        (0, 12, false)
    );
    let second = advance(
        rt.alloc(),
        start(&image, &first.board),
        Until::Boundary(20),
        8,
    )?;
    assert!(rt; second.output.as_slice() == b"L 12 05\n".as_slice());
    assert_eq!(rt; (second.clock, second.jammed), (22, false));
    let short = advance(
        rt.alloc(),
        start(&image, &first.board),
        Until::Boundary(20),
        7,
    )?;
    assert_eq!(rt; (short.output.len(), short.wanted), (0, 8));
    assert!(rt; short.board == second.board);
    let whole = advance(rt.alloc(), start(&image, &board), Until::Boundary(20), 8)?;
    assert!(rt; whole.board == second.board);
    Ok(())
}

#[test]
fn a_sample_is_the_sum_of_its_levels(rt: HostRuntime) -> Result<(), StretchFault> {
    let Ok(image) = assemble(rt.alloc(), TONE, b"") else {
        return Err(StretchFault::NoMemory);
    };
    let stretch = sample(rt.alloc(), start(&image, &power_on()), 28, 8, 12)?;
    let samples = [0, 0, 0, 0, 0, 0, 0, 0, 20, 0, 0, 0];
    assert!(rt; stretch.output.as_slice() == samples.as_slice());
    Ok(())
}
