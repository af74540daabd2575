use asm_avg::assemble;
use asm_core::ListingLine;
use rom_image::Image;
use std::test::Fail;

#[test]
fn a_picture_gives_its_lines_and_bytes(rt: HostRuntime) -> Result<(), Fail> {
    let mut image = Image::blank(rt.alloc())?;
    let source = b" .org $2800\n svec 2, 0, 7\n vctr -4096, 0, 7\n halt\n";
    let listing = assemble(rt.alloc(), source, &mut image)?;
    let lines = [(0x2800, 2, 2), (0x2802, 4, 3), (0x2806, 2, 4)];
    for (found, (addr, count, line)) in listing.lines().iter().zip(lines) {
        assert_eq!(rt; *found, ListingLine { addr, count, line });
    }
    assert_eq!(rt; listing.lines().len(), 3);
    let bytes = [0xE1, 0x40, 0x00, 0x00, 0x00, 0xF0, 0x00, 0x20];
    assert!(rt; image.bytes().starts_with(bytes.as_slice()));
    Ok(())
}
