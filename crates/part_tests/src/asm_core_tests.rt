use asm_core::{Dialect, Form, Names, Rom, Words, assemble};
use asm_text::{AsmCause, AsmFault};
use board_base::{OutOfMemory, VECTOR_ROM_LEN};
use rom_image::Image;
use std::alloc::Global;
use std::test::Fail;

/// A language without a word of its own.
struct NoWords;

impl Dialect for NoWords {
    ghost use Rattle.asm_core.specs.declared.dialect.Form.TheVariants.{NotReserved};

    ghost language = { λ names at first rest. NotReserved };

    fn read_statement<'a>(
        &self,
        _alloc: Global,
        _first: &'a [u8],
        _rest: &Words<'a>,
        _names: &Names<'a>,
        _at: u32,
    ) -> Result<Form<'a>, OutOfMemory> {
        Ok(Form::NotReserved)
    }
}

const ROM: Rom = Rom {
    low: 0x9000,
    high: 0x10000,
    even: false,
};

#[test]
fn words_stand_at_their_addresses(rt: HostRuntime) -> Result<(), Fail> {
    let mut image = Image::blank(rt.alloc())?;
    let source =
        b" .org $9000\none: .WORD one, <two, >two\r\ntwo = -2 ; minus two\n .word -two+$FF";
    let listing = assemble(rt.alloc(), &NoWords, source, ROM, &mut image)?;
    assert_eq!(rt; listing.lines().len(), 2);
    let bytes = [0x00, 0x90, 0xFE, 0x00, 0xFF, 0x00, 0x01, 0x01, 0x00];
    assert!(rt; image.bytes()[VECTOR_ROM_LEN..].starts_with(&bytes));
    Ok(())
}

#[test]
fn a_list_fills_the_rom_and_a_longer_one_is_outside(rt: HostRuntime) -> Result<(), Fail> {
    let mut image = Image::blank(rt.alloc())?;
    let mut source = Vec::new(rt.alloc());
    source.extend_from_slice(b" .org $9000\n .word 0")?;
    for _ in 1..14_336 {
        source.extend_from_slice(b",0")?;
    }
    let listing = assemble(rt.alloc(), &NoWords, &source, ROM, &mut image)?;
    let first = listing.lines().first();
    assert!(rt; matches!(first, Some(line) if line.count == 28_672));
    source.extend_from_slice(b",0")?;
    let longer = assemble(rt.alloc(), &NoWords, &source, ROM, &mut image);
    let outside = AsmFault::Line {
        line: 2,
        cause: AsmCause::OutsideRom,
    };
    assert!(rt; matches!(longer, Err(fault) if fault == outside));
    Ok(())
}
