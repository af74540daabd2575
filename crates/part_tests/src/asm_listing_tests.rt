use asm_core::{Listing, ListingLine};
use asm_listing::{Text, push_listing};
use rom_image::Image;
use std::test::Fail;

/// Lines of a listing.
static LINES: [ListingLine; 3] = [
    ListingLine {
        addr: 0x9000,
        count: 2,
        line: 2,
    },
    ListingLine {
        addr: 0xFFFD,
        count: 3,
        line: 10,
    },
    ListingLine {
        addr: 0x2800,
        count: 1,
        line: 65_536,
    },
];

#[test]
fn each_line_has_its_address_its_number_and_its_bytes(rt: HostRuntime) -> Result<(), Fail> {
    let mut image = Image::blank(rt.alloc())?;
    image.put(0x9000, 0xA9);
    image.put(0x9001, 0x05);
    image.put(0xFFFF, 0x9F);
    let mut listing = Listing::new(rt.alloc());
    for line in LINES {
        listing.push(line)?;
    }
    let mut text = Text::new(rt.alloc());
    push_listing(&mut text, &listing, &image)?;
    let expected = b"9000 2: A9 05\nFFFD 10: 00 00 9F\n2800 65536: 00\n";
    assert_eq!(rt; text.bytes(), expected.as_slice());
    Ok(())
}
