ghost use Rattle.std.specs.Prelude.{◌≡◌, ◌+◌, [], ◌∷◌, ◌++◌, OnOk, decimal, unwrap_or};
ghost use Rattle.text_line.specs.Words.{hex_byte, hex_word};
ghost use Rattle.rom_image.specs.Addresses.{byte_of};
ghost use Rattle.asm_listing.specs.ListingText.{bytes_from, bytes_text, line_text, listing_text};

use crate::Text;
use asm_core::{Listing, ListingLine};
use board_base::OutOfMemory;
use rom_image::Image;

/// The byte of an image at an address, 0 where it has none.
fn byte_at(image: &Image, addr: u64) -> u8
    ensures { result ≡ unwrap_or (byte_of image.now addr) 0 }
{
    match u16::try_from(addr) {
        Ok(addr) => image.byte_at(addr).unwrap_or(0),
        Err(_) => 0,
    }
}

/// The address of a line, its number in the source and a colon.
fn push_head(text: &mut Text, line: &ListingLine) -> Result<(), OutOfMemory>
    ensures { OnOk result (text.new ≡ text.old ++ (hex_word line.now.addr ++ 32 ∷ decimal line.now.line ++ 58 ∷ [])) }
{
    let [high, low] = line.addr.to_be_bytes();
    text.hex(high)?;
    text.hex(low)?;
    text.byte(b' ')?;
    text.number(line.line)?;
    text.byte(b':')
}

/// A blank and a byte.
fn push_byte(text: &mut Text, byte: u8) -> Result<(), OutOfMemory>
    ensures { OnOk result (text.new ≡ text.old ++ 32 ∷ hex_byte byte) }
{
    text.byte(b' ')?;
    text.hex(byte)
}

/// The bytes of a line.
fn push_bytes(text: &mut Text, image: &Image, line: &ListingLine) -> Result<(), OutOfMemory>
    ensures { OnOk result (text.new ≡ text.old ++ bytes_text (bytes_from image.now line.now.addr line.now.count)) }
{
    for i in 0..line.count {
        push_byte(text, byte_at(image, u64::from(line.addr) + u64::from(i)))?;
    }
    Ok(())
}

/// A line of a listing.
fn push_line(text: &mut Text, image: &Image, line: &ListingLine) -> Result<(), OutOfMemory>
    ensures { OnOk result (text.new ≡ text.old ++ line_text image.now line.now) }
{
    push_head(text, line)?;
    push_bytes(text, image, line)?;
    text.byte(b'\n')
}

/// Puts a listing behind a text: for each line that gives bytes its address in four hexadecimal
/// digits, its number in the source, and the bytes that the image has there. After a refusal the
/// text is only to be dropped.
pub fn push_listing(text: &mut Text, listing: &Listing, image: &Image) -> Result<(), OutOfMemory>
    ensures { OnOk result (text.new ≡ text.old ++ listing_text image.now listing.now) }
{
    for line in listing.lines() {
        push_line(text, image, line)?;
    }
    Ok(())
}
