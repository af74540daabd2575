//! The program's runs beside those of the library call, whose number of device calls is proved.

use crate::programs::{FILE, LATCH, files, program_image, words_of};
use board_base::BoardState;
use catchup_engine::{Devices, Engine};
use gravitar_commands::{gravitar, run_slices};
use outside_io::{MemoryShelf, MemorySink};
use rom_image::Image;
use std::alloc::Global;
use std::process::Abort;
use std::test::Fail;
use tape_ports::Tape;
use workload_gen::make;

/// The most bytes of a text.
const TEXT: usize = 8 << 20;

/// What a run wrote and stored.
#[derive(Drop)]
struct Told {
    shelf: MemoryShelf,
    text: MemorySink,
}

/// Does a command over an image `i` and a tape `t` by the program.
fn by_program<R: Abort + Alloc<A = Global>>(
    rt: &R,
    line: &str,
    image: &[u8],
    tape: &[u8],
) -> Result<Told, Fail> {
    let mut shelf = files(rt.alloc(), image, tape)?;
    let words = words_of(rt.alloc(), line)?;
    let mut text = MemorySink::new(rt.alloc(), TEXT, &[])?;
    let mut notes = MemorySink::new(rt.alloc(), 100, &[])?;
    let status = gravitar(rt.alloc(), &words, &mut shelf, &mut text, &mut notes);
    assert_eq!(rt; status, 0, "{line}: the status");
    Ok(Told { shelf, text })
}

/// Does a run from power-on by `run_slices`, over an engine, a shelf and a sink of its own.
fn by_slices<R: Abort + Alloc<A = Global>>(
    rt: &R,
    image: &Image,
    tape: &Tape,
    cuts: &[u64],
    save: Option<&str>,
) -> Result<Told, Fail> {
    let power_on = BoardState::power_on();
    let mut engine = Engine::new(rt.alloc(), image, &power_on, Devices::fast(), false)?;
    let mut shelf = MemoryShelf::new(rt.alloc(), 4, FILE, &[])?;
    let mut text = MemorySink::new(rt.alloc(), TEXT, &[])?;
    let end = tape.end();
    let answer = run_slices(
        &mut engine,
        tape,
        cuts,
        end,
        save,
        None,
        true,
        &mut shelf,
        &mut text,
    );
    assert!(rt; answer.is_ok(), "the slices");
    Ok(Told { shelf, text })
}

/// Asserts that two shelves took the same stores.
fn assert_same_stores<R: Abort>(rt: &R, line: &str, one: &MemoryShelf, two: &MemoryShelf) {
    assert_eq!(rt;
        one.stores().len(),
        two.stores().len(),
        "{line}: the stores"
    );
    for (first, second) in one.stores().iter().zip(two.stores()) {
        assert_eq!(rt; first.name(), second.name(), "{line}: the name of a store");
        assert!(rt;
            first.bytes() == second.bytes(),
            "{line}: the bytes of a store"
        );
    }
}

/// Asserts that a run by the program, with its line of the device calls, and its stores are those
/// of its slices.
fn assert_same<R: Abort + Alloc<A = Global>>(
    rt: &R,
    line: &str,
    image: &[u8],
    tape: &[u8],
    cuts: &[u64],
    save: Option<&str>,
) -> Result<(), Fail> {
    let one = by_program(rt, line, image, tape)?;
    let image = Image::read(rt.alloc(), image)?;
    let tape = Tape::read(rt.alloc(), tape)?;
    let two = by_slices(rt, &image, &tape, cuts, save)?;
    assert!(rt; one.text.bytes() == two.text.bytes(), "{line}: the text");
    assert_same_stores(rt, line, &one.shelf, &two.shelf);
    Ok(())
}

#[test]
fn a_run_makes_the_device_calls_of_its_slices(rt: HostRuntime) -> Result<(), Fail> {
    let image = program_image(rt.alloc(), LATCH)?;
    assert_same(&rt, "run i t --cost", &image, b"20 END\n", &[], None)?;
    let line = "run i t --cuts 100,100,101 --save s --cost";
    assert_same(&rt, line, &image, b"200 END\n", &[100, 100, 101], Some("s"))
}

#[test]
fn a_large_run_makes_the_device_calls_of_its_slices(rt: HostRuntime) -> Result<(), Fail> {
    let (image, _tape) = make(rt.alloc(), 1)?;
    assert_same(
        &rt,
        "run i t --cost",
        image.bytes(),
        b"1500000 END\n",
        &[],
        None,
    )
}
