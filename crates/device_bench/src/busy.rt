//! Boards that do as much as they can, each made from a seed.
ghost use Rattle.std.specs.Prelude.{◌<◌, ◌≤◌};

use crate::measure::Fault;
use crate::programs::{Burner, Draws};
use rom_image::{Image, PROGRAM_ROM_START};
use std::alloc::Global;
use tape_ports::Tape;

/// Copies the first words of the vector ROM to the RAM, begins the write of an EAROM cell, lets
/// interrupts in, and goes on at 9200.
const COPY: [u8; 24] = [
    0xA2, 0x3F, 0xBD, 0x00, 0x28, 0x9D, 0x00, 0x20, 0xCA, 0x10, 0xF7, 0xE8, 0xA9, 0x0A, 0x8D, 0x47,
    0x89, 0x8D, 0x00, 0x89, 0x58, 0x4C, 0x00, 0x92,
];

/// Shows IRQST on the latch, acknowledges the interrupts of all three devices, reads the EAROM's
/// cell and begins to erase it.
const HANDLER: [u8; 35] = [
    0x48, 0xAD, 0x0E, 0x60, 0x8D, 0x00, 0x88, 0xA9, 0x00, 0x8D, 0x0E, 0x60, 0x8D, 0x0E, 0x68, 0x8D,
    0xC0, 0x88, 0xA9, 0x09, 0x8D, 0x00, 0x89, 0xA9, 0x08, 0x8D, 0x00, 0x89, 0xA9, 0x0E, 0x8D, 0x00,
    0x89, 0x68, 0x40,
];

/// The operations by which the programs write: INC, LSR, and STA with X and without.
const STORES: [u8; 8] = [0xEE, 0x4E, 0x9D, 0x8D, 0x8D, 0x8D, 0x8D, 0x8D];

/// Where they write, with the EAROM at the end.
const WRITTEN: [u16; 64] = [
    0x6000, 0x6001, 0x6002, 0x6003, 0x6004, 0x6005, 0x6006, 0x6007, 0x6008, 0x6009, 0x600B, 0x600E,
    0x600F, 0x67FE, 0x6800, 0x6801, 0x6802, 0x6803, 0x6804, 0x6805, 0x6806, 0x6807, 0x6808, 0x6809,
    0x680B, 0x680E, 0x680F, 0x6FFB, 0x2000, 0x2001, 0x2003, 0x2004, 0x2007, 0x2020, 0x8840, 0x8840,
    0x8840, 0x8840, 0x8880, 0x8800, 0x88C0, 0x8980, 0x89ED, 0x7000, 0x7800, 0x2800, 0x0010, 0x9000,
    0x8940, 0x8941, 0x8942, 0x897F, 0x8900, 0x8900, 0x8900, 0x8900, 0x8900, 0x8900, 0x8840, 0x8800,
    0x6009, 0x680F, 0x2002, 0x2005,
];

/// Where they read.
const READ: [u16; 16] = [
    0x600A, 0x600A, 0x680A, 0x6008, 0x6808, 0x600E, 0x680E, 0x6000, 0x6807, 0x7000, 0x7000, 0x7800,
    0x7800, 0x8000, 0x8800, 0x2001,
];

/// The high bytes of the words in their pictures, of which the most are short vectors.
const WORDS: [u8; 16] = [
    0x00, 0x72, 0x76, 0x62, 0x80, 0xA4, 0xC0, 0xE4, 0x40, 0x5F, 0x43, 0x5C, 0x4A, 0x41, 0x5E, 0x45,
];

/// What their tapes set.
const PORTS: [&str; 16] = [
    "IN0", "IN0", "IN3", "IN4", "P0", "P1", "P2", "P5", "P6", "P7", "Q0", "Q1", "Q3", "Q4", "Q6",
    "Q7",
];

/// Puts a program that writes and reads the devices again and again, at the first `span` places of
/// those that are written. Some of what it reads depends on how long it takes.
fn put_program(burner: &mut Burner, draws: &mut Draws, span: u16)
    requires some { 0 < span }
    requires few { span ≤ 64 }
{
    for _ in 0..120 {
        burner.put(0xA9);
        burner.put(draws.byte());
        burner.put(STORES[usize::from(draws.below(8))]);
        burner.put_word(WRITTEN[usize::from(draws.below(span))]);
        burner.put(0xAD);
        burner.put_word(READ[usize::from(draws.below(16))]);
        burner.put(0x10);
        burner.put(0x02);
        burner.put(0xE6);
        burner.put(draws.byte());
        burner.put(0x85);
        burner.put(draws.byte());
    }
    burner.put(0x4C);
    burner.put_word(0x9200);
}

/// Puts a picture of drawn words.
fn put_picture(burner: &mut Burner, draws: &mut Draws) {
    for _ in 0..512 {
        burner.put(draws.byte());
        burner.put(WORDS[usize::from(draws.below(16))]);
    }
}

/// An image with a busy program and a picture.
pub fn busy_image(alloc: Global, draws: &mut Draws, span: u16) -> Result<Image, Fault>
    requires some { 0 < span }
    requires few { span ≤ 64 }
{
    let mut burner = Burner::new(alloc)?;
    put_picture(&mut burner, draws);
    burner.put_from(PROGRAM_ROM_START, &COPY);
    burner.put_from(0x9100, &HANDLER);
    burner.put_from(0xFFFC, &[0x00, 0x90, 0x00, 0x91]);
    burner.put_from(0x9200, &[]);
    put_program(&mut burner, draws, span);
    Ok(burner.image())
}

/// A tape with 300 entries, each fewer than `gap` clocks after the one before.
pub fn busy_tape(alloc: Global, draws: &mut Draws, gap: u16) -> Result<Tape, Fault>
    requires { 0 < gap }
{
    let mut text = String::new(alloc);
    let mut clock = 0u64;
    for _ in 0..300 {
        clock = clock.wrapping_add(u64::from(draws.below(gap)));
        let port = PORTS[usize::from(draws.below(16))];
        let value = draws.byte();
        writeln!(text, "{clock} {port} {value:02x}").map_err(|_| Fault::OutOfMemory)?;
    }
    text.push_str("90000 END").map_err(|_| Fault::OutOfMemory)?;
    Tape::read(alloc, text.as_bytes()).map_err(|_| Fault::OutOfMemory)
}
