use crate::programs::trace_of_the_write;
use board_base::{Record, Trail, Trails};
use frame_list::Frames;
use outside_io::MemorySink;
use std::test::Fail;

/// A stroke from one place to another.
fn stroke(clock: u64, from: (i32, i32), to: (i32, i32)) -> Record {
    Record::Stroke {
        clock,
        x0: from.0,
        y0: from.1,
        x1: to.0,
        y1: to.1,
        colour: 7,
        intensity: 15,
    }
}

#[test]
fn a_write_of_8840_ends_a_frame(rt: HostRuntime) -> Result<(), Fail> {
    // The write is in clock 10: a stroke of that clock is before it, and one of clock 11 after it.
    let mut strokes = Trail::new(rt.alloc(), 2)?;
    strokes.push(stroke(10, (0, 0), (-5, 7)));
    strokes.push(stroke(11, (1, 2), (4, 3)));
    let empty = Trail::new(rt.alloc(), 0)?;
    let trails = Trails {
        vector: &strokes,
        sound1: &empty,
        sound2: &empty,
        board: &empty,
    };
    let mut frames = Frames::new(0);
    let mut out = MemorySink::new(rt.alloc(), 100, &[])?;
    let taken = frames.take(&trace_of_the_write(), &trails, &mut out);
    assert_eq!(rt; taken, Ok(()));
    assert_eq!(rt; frames.end(&mut out), Ok(()));
    // A frame's number, its mark, its strokes, and their least and greatest x and y.
    assert_eq!(rt;
        out.bytes(),
        b"F 0 0 1 -5 0 0 7\nF 1 10 1 1 2 4 3\n".as_slice()
    );
    Ok(())
}
