use crate::programs::{JAM, LATCH, files, program_image, words_of};
use gravitar_commands::{USAGE, Words, gravitar, steady_status};
use outside_io::{MemoryShelf, MemorySink, SteadyShelf};
use std::alloc::Global;
use std::process::Abort;
use std::test::Fail;

/// Does a command of some words over the files, and compares its status, its text and its note.
fn assert_done<R: Abort + Alloc<A = Global>>(
    rt: &R,
    words: &Words,
    shelf: &mut MemoryShelf,
    status: u8,
    text: &[u8],
    note: &[u8],
) -> Result<(), Fail> {
    let mut out = MemorySink::new(rt.alloc(), 1000, &[])?;
    let mut notes = MemorySink::new(rt.alloc(), 1000, &[])?;
    let answer = gravitar(rt.alloc(), words, shelf, &mut out, &mut notes);
    assert_eq!(rt; answer, status, "the status");
    assert!(rt; out.bytes() == text, "the text");
    assert!(rt; notes.bytes() == note, "the note");
    Ok(())
}

/// Does a command over the latch's image and a tape, and compares what comes.
fn check<R: Abort + Alloc<A = Global>>(
    rt: &R,
    line: &str,
    status: u8,
    text: &[u8],
    note: &[u8],
) -> Result<(), Fail> {
    let image = program_image(rt.alloc(), LATCH)?;
    let mut shelf = files(rt.alloc(), &image, b"20 END\n")?;
    let words = words_of(rt.alloc(), line)?;
    assert_done(rt, &words, &mut shelf, status, text, note)
}

#[test]
fn a_log_and_samples_are_written_where_there_is_memory(rt: HostRuntime) -> Result<(), Fail> {
    check(&rt, "run i t", 0, b"L 12 05\nE 22\n", b"")?;
    // Two groups of eight of the 22 clocks are whole, and no POKEY sounds.
    check(&rt, "pcm i t 8", 0, &[0; 8], b"")?;
    check(&rt, "pcm i t 0", 2, b"", USAGE)
}

/// The files of these lines.
fn steady_shelf(alloc: Global) -> Result<SteadyShelf, Fail> {
    let image = program_image(alloc, LATCH)?;
    let jams = program_image(alloc, JAM)?;
    let mut shelf = SteadyShelf::new(alloc);
    shelf.put("i", &image)?;
    shelf.put("jams", &jams)?;
    shelf.put("t", b"20 END\n")?;
    Ok(shelf)
}

#[test]
fn files_and_an_output_that_never_fail_give_the_same_status(rt: HostRuntime) -> Result<(), Fail> {
    let mut shelf = steady_shelf(rt.alloc())?;
    let rows: [(&str, u8, &[u8]); 5] = [
        ("run i t", 0, b""),
        ("run jams t", 3, b""),
        ("pcm jams t 1", 0, b""),
        ("run t t", 4, b"gravitar: t: length 7\n"),
        ("run x t", 5, b"gravitar: x: absent\n"),
    ];
    for (line, status, note) in rows {
        let words = words_of(rt.alloc(), line)?;
        let mut notes = MemorySink::new(rt.alloc(), 1000, &[])?;
        let answer = steady_status(rt.alloc(), &words, &mut shelf, &mut notes);
        assert_eq!(rt; answer, status, "{line}");
        assert!(rt; notes.bytes() == note, "{line}: the note");
    }
    Ok(())
}
