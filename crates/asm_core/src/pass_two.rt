ghost use Rattle.std.specs.Prelude.{◌≡◌, ℕ, ◌+◌, ◌*◌, ◌^◌, ◌≤◌, ◌<◌, Ok, IsSome, length, map, unsigned_abs};
ghost use Rattle.std.specs.List.{All};
ghost use Rattle.rom_image.specs.Addresses.{offset_of};
ghost use Rattle.bit_words.specs.Residues.{residue};
ghost use Rattle.asm_text.specs.Answers.{Answers};
ghost use Rattle.asm_core.specs.Cells.{IsCell, IsFieldPlace, cell_number, cells_bytes, field_number, held, low_bytes, size_of, unit_of};
ghost use Rattle.asm_core.specs.PassOne.{IsPlaced, IsRom};
ghost use Rattle.asm_core.specs.Images.{line_written, listed, with_bytes, written_and_listed};

use crate::cell::{all_fine, all_known, size_of};
use crate::pass_one::at_line;
use crate::{Cell, Field, Listing, ListingLine, Names, Place, Placed, Rom, value};
use asm_text::{AsmCause, AsmFault};
use rom_image::Image;
use std::alloc::Global;

/// The remainder by a number, from 0 up.
fn residue(modulus: u64, value: i128) -> u64
    requires { 0 < modulus }
    ensures value { result ≡ residue modulus value }
    ensures small { result < modulus }
{
    value.rem_euclid(i128::from(modulus)) as u64
}

/// What a place counts by.
fn unit_of(place: &Place) -> u64
    ensures value { result ≡ unit_of place.now }
    ensures some { 1 ≤ result }
    ensures small { result ≤ 2 }
{
    if place.even { 2 } else { 1 }
}

/// The number of which this bit alone is set.
fn bit(place: u8) -> u64
    requires { place ≤ 32 }
    ensures value { result ≡ 2 ^ place }
    ensures some { 1 ≤ result }
    ensures small { result ≤ 2 ^ 32 }
{
    1 << place
}

/// The number that holds a value in a place.
#[tactic(auto, using(crate::proofs::Putting::bits))]
fn held(place: &Place, value: i128) -> u64
    requires { IsFieldPlace place.now }
    ensures number { result ≡ held place.now value }
    ensures small { result ≤ 2 ^ 32 }
{
    let unit = unit_of(place);
    let bits = residue(unit * bit(place.bits), value) / unit;
    bits * bit(place.shift)
}

/// What a field adds to its cell.
fn field_number(names: &Names, field: &Field) -> u64
    requires { IsFieldPlace field.now.place }
    ensures number { result ≡ field_number names.now field.now }
    ensures small { result ≤ 2 ^ 32 }
{
    let value = value(names, &field.expression).unwrap_or(0);
    held(&field.place, value - i128::from(field.origin))
}

/// The number of a cell.
fn cell_number(names: &Names, cell: &Cell) -> u64
    requires { IsCell cell.now }
    ensures { result ≡ cell_number names.now cell.now }
{
    let mut number = u64::from(cell.base);
    let fields = cell.fields.items();
    for field in fields {
        number += field_number(names, field);
    }
    number
}

/// Puts the lowest bytes of a number into an image, from an address on.
#[tactic(auto, using(crate::proofs::Putting::bytes), unfolding(crate::specs::Images::with_bytes))]
fn put_number(image: &mut Image, at: u32, size: u8, number: u64)
    requires within { at + size ≤ 65536 }
    requires inside { (addr : ℕ) → at ≤ addr → addr < at + size → IsSome (offset_of addr) }
    ensures { image.new ≡ with_bytes at (low_bytes size number) image.old }
{
    let mut addr = at;
    let mut left = size;
    let mut rest = number;
    'bytes: while left > 0 {
        image.put(addr as u16, (rest % 256) as u8);
        addr += 1;
        left -= 1;
        rest /= 256;
    }
}

/// Puts the bytes of a statement into an image, from an address on.
#[tactic(auto, using(crate::proofs::Putting::bytes), unfolding(crate::specs::Images::with_bytes))]
fn put_cells(image: &mut Image, names: &Names, at: u32, cells: &[Cell])
    requires cells { All IsCell cells.now }
    requires within { at + size_of cells.now ≤ 65536 }
    requires inside { (addr : ℕ) → at ≤ addr → addr < at + size_of cells.now → IsSome (offset_of addr) }
    ensures { image.new ≡ with_bytes at (cells_bytes names.now cells.now) image.old }
{
    let mut addr = at;
    'cells: for cell in cells {
        put_number(image, addr, cell.size, cell_number(names, cell));
        addr += u32::from(cell.size);
    }
}

/// Puts the bytes of a line into an image: pass 2.
#[tactic(auto, unfolding(crate::specs::Passes::placed_bytes))]
fn write_line(image: &mut Image, names: &Names, rom: Rom, placed: &Placed) -> Result<(), AsmFault>
    requires rom { IsRom rom }
    requires placed { IsPlaced rom placed.now }
    ensures { Answers (λ _. image.new) result (line_written names.now image.old placed.now) }
{
    let cells = placed.cells.items();
    if !all_known(names, cells) {
        return Err(at_line(placed.line, AsmCause::UnknownName));
    }
    if !all_fine(names, cells) {
        return Err(at_line(placed.line, AsmCause::OutOfRange));
    }
    put_cells(image, names, placed.at, cells);
    Ok(())
}

/// The line of the listing for a line that gives bytes.
fn list_line(placed: &Placed) -> ListingLine
    requires within { placed.now.at + size_of placed.now.cells ≤ 65536 }
    requires some { 1 ≤ size_of placed.now.cells }
    ensures { result ≡ listed placed.now }
{
    ListingLine {
        addr: placed.at as u16,
        count: size_of(placed.cells.items()) as u32,
        line: placed.line,
    }
}

/// Puts the bytes of all lines into an image, and lists the lines.
#[tactic(auto, using(crate::proofs::Lists::steps), unfolding(crate::specs::Images::pass_two))]
pub(crate) fn write_lines(
    alloc: Global,
    names: &Names,
    rom: Rom,
    lines: &[Placed],
    image: &mut Image,
) -> Result<Listing, AsmFault>
    requires rom { IsRom rom }
    requires lines { All (IsPlaced rom) lines.now }
    ensures { Answers (λ listing. (image.new, listing)) result (written_and_listed names.now image.old lines.now) }
{
    let mut listing = Listing::new(alloc);
    'lines: for placed in lines {
        if let Err(fault) = write_line(image, names, rom, placed) {
            return Err(fault);
        }
        let Ok(()) = listing.push(list_line(placed)) else {
            return Err(AsmFault::OutOfMemory);
        };
    }
    Ok(listing)
}
