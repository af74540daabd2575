use board_base::VECTOR_ROM_LEN;
use rom_image::Image;
use std::test::Fail;
use tape_ports::{Port, TapeEntry};
use workload_gen::make;

/// The source of the workload's program.
const WORKLOAD: &str = "        .org $9000
start:  cld
        ldx #$FF
        txs
        lda #$E4
        sta $2001
        lda #$03
        sta $600F
        sta $680F
        lda #$A6
        sta $6001
        sta $6803
        cli
main:   sta $8980
        lda $7800
        and #$40
        beq main
        sta $8840
        lda $600A
        sta $6000
        lda $680A
        sta $6802
        inc $10
        lda $10
        sta $8800
        jmp main
irq:    pha
        sta $88C0
        lda $8000
        sta $6005
        pla
        rti
        .org $FFFA
        .word start, start, irq
";

/// An entry of a tape: its clock, its port and its value.
type Entry = (u64, Port, u8);

/// What a seed gives: the bytes of its first five words, of the second colour with the two words
/// before it and the one after it, and of the last three words; the first three entries, and the
/// last two.
struct Expected {
    seed: u64,
    front: [u8; 10],
    colour: [u8; 8],
    back: [u8; 6],
    first: [Entry; 3],
    last: [Entry; 2],
}

/// Worked out by hand from the formula, apart from this code: number n of a seed is `a^n * seed + c
/// * (a^n - 1) / (a - 1)` modulo 2^64, with the factor a and the summand c of the generator, and
/// draw n its highest sixteen bits.
const EXPECTED: [Expected; 2] = [
    Expected {
        seed: 1,
        front: [0x00, 0x80, 0x57, 0x71, 0x68, 0x60, 0xFA, 0x45, 0x03, 0x42],
        colour: [0x80, 0x48, 0xE9, 0x43, 0x1D, 0x60, 0x15, 0x4C],
        back: [0xD8, 0x5C, 0x92, 0x47, 0x00, 0x20],
        first: [
            (100_000, Port::Pot1(7), 0x10),
            (200_000, Port::Pot1(4), 0xCA),
            (300_000, Port::Pot2(6), 0xB9),
        ],
        last: [
            (19_900_000, Port::Pot2(2), 0x18),
            (20_000_000, Port::Pot1(4), 0xDD),
        ],
    },
    Expected {
        seed: u64::MAX,
        front: [0x00, 0x80, 0x33, 0x71, 0xA9, 0x60, 0xF2, 0x4F, 0x68, 0x4B],
        colour: [0xDF, 0x4C, 0x59, 0x57, 0xCB, 0x60, 0x8D, 0x4F],
        back: [0xB8, 0x4D, 0xA1, 0x5A, 0x00, 0x20],
        first: [
            (100_000, Port::Pot2(7), 0x73),
            (200_000, Port::Pot2(3), 0x4B),
            (300_000, Port::Pot1(6), 0xAC),
        ],
        last: [
            (19_900_000, Port::Pot2(1), 0x5F),
            (20_000_000, Port::In0, 0xD8),
        ],
    },
];

/// Whether an image has these bytes from an address of the vector ROM on.
fn stand_at(image: &Image, addr: u16, bytes: &[u8]) -> bool {
    match image
        .bytes()
        .get(usize::from(addr).saturating_sub(0x2800)..)
    {
        Some(rest) => rest.starts_with(bytes),
        None => false,
    }
}

/// Whether entries begin with these.
fn begin_with(entries: &[TapeEntry], expected: &[Entry]) -> bool {
    entries.iter().zip(expected).all(|(entry, wanted)| (entry.clock, entry.port, entry.value)
        == *wanted)
}

#[test]
fn the_program_is_what_its_source_gives(rt: HostRuntime) -> Result<(), Fail> {
    let mut assembled = Image::blank(rt.alloc())?;
    let _listing = asm_cpu::assemble(rt.alloc(), WORKLOAD.as_bytes(), &mut assembled)?;
    let (image, _tape) = make(rt.alloc(), 1)?;
    assert_eq!(rt;
        image.bytes()[VECTOR_ROM_LEN..],
        assembled.bytes()[VECTOR_ROM_LEN..]
    );
    Ok(())
}

#[test]
fn a_seed_gives_these_words_and_entries(rt: HostRuntime) -> Result<(), Fail> {
    for expected in &EXPECTED {
        let (image, tape) = make(rt.alloc(), expected.seed)?;
        assert!(rt; stand_at(&image, 0x2800, &expected.front));
        assert!(rt; stand_at(&image, 0x283E, &expected.colour));
        assert!(rt; stand_at(&image, 0x2A6C, &expected.back));
        assert!(rt; stand_at(&image, 0x2A72, &[0x00, 0x00]));
        assert_eq!(rt; tape.entries().len(), 200);
        assert!(rt; begin_with(tape.entries(), &expected.first));
        assert!(rt; begin_with(&tape.entries()[198..], &expected.last));
        assert_eq!(rt; tape.end(), 20_000_000);
    }
    Ok(())
}
