ghost use Rattle.std.specs.Prelude.{◌≡◌, ◌+◌, ◌≤◌, ◌++◌, true, false, IfOk, IfSome, OnOk, OnSome, Ok, Some, None, drop, length, replicate, take, if◌then◌else◌};
ghost use Rattle.std.specs.List.{list_any};
ghost use Rattle.std.specs.Option.{option_map_or};
ghost use Rattle.asm_text.specs.Answers.{Answers, Faults};
ghost use Rattle.asm_core.specs.Forms.{AreCells, IsBody};
ghost use Rattle.asm_core.specs.PassOne.{IsPlaced, IsRom, IsPassOne, known_of};
ghost use Rattle.asm_core.specs.Cells.{size_of};
ghost use Rattle.asm_core.specs.Passes.{body_looked_at, bytes_looked_at, equals_looked_at, found_before, is_in_rom, is_named, looked_at, ranged, room_for, with_label};

use crate::cell::{all_fine, is_in_range, size_of};
use crate::cells::Stored;
use crate::long_list::LongList;
use crate::{Body, Cell, Cells, Line, List, Name, Names, Placed, Rom, value};
use asm_text::{AsmCause, AsmFault};
use std::alloc::Global;

/// What pass 1 knows before a line.
#[derive(Drop)]
pub(crate) struct PassOne<'a> {
    pub names: Names<'a>,
    /// The line's address.
    pub at: u32,
    /// The earlier lines that give bytes.
    pub placed: List<Placed<'a>>,
    /// Which bytes of the ROM these give.
    pub taken: Vec<bool>,
}

/// What is wrong with a line.
pub(crate) fn at_line(line: u32, cause: AsmCause) -> AsmFault
    ensures { result ≡ AsmFault.Line line cause }
{
    AsmFault::Line { line, cause }
}

/// A known value in a range.
fn ranged(found: Option<i128>, low: i32, high: i32, even: bool, line: u32) -> Result<i32, AsmFault>
    ensures { result ≡ ranged line low high even found }
{
    let Some(value) = found else {
        return Err(at_line(line, AsmCause::UnknownName));
    };
    if !is_in_range(low, high, even, value) {
        return Err(at_line(line, AsmCause::OutOfRange));
    }
    Ok(value as i32)
}

/// The value that a name or the address is given, where the names in it stand on earlier lines.
fn found_before(names: &Names, body: &Body) -> Option<i128>
    ensures { result ≡ found_before names.now body.now }
{
    match body {
        Body::Nothing | Body::Gives(_) => None,
        Body::Equals(_, expression) | Body::Origin(expression) => value(names, expression),
    }
}

/// Whether a line's label has a value.
fn is_named(names: &Names, label: &Option<Name>) -> bool
    ensures { result ≡ option_map_or (is_named names.now) label.now false }
{
    match label {
        Some(name) => names.get(name.bytes()).is_some(),
        None => false,
    }
}

/// Gives a line's label the line's address.
fn add_label<'a>(names: &mut Names<'a>, label: Option<Name<'a>>, at: u32) -> Result<(), AsmFault>
    requires at { at ≤ 65536 }
    requires new { option_map_or (is_named names.old) label false ≡ false }
    ensures { Answers (λ _. names.new) result (Ok (with_label names.old label.entry at)) }
{
    let Some(name) = label else { return Ok(()) };
    names
        .define(name.bytes(), at as i32)
        .map_err(|_| AsmFault::OutOfMemory)
}

/// Whether some of these bytes are given.
fn is_given(taken: &[bool], from: usize, count: usize) -> bool
    requires { from + count ≤ length taken.now }
    ensures { result ≡ list_any (λ given. given) (take count (drop from taken.now)) }
{
    taken[from..from + count].iter().any(|given| *given)
}

/// Notes that these bytes are given.
fn give(taken: &mut Vec<bool>, from: usize, count: usize)
    requires { from + count ≤ length taken.old.items }
    ensures { taken.new.items ≡ take from taken.old.items ++ replicate count true ++ drop (from + count) taken.old.items }
{
    taken[from..from + count].fill(true);
}

/// The size of a statement whose bytes are in the ROM.
fn size_in_rom(rom: Rom, at: u32, cells: &[Cell]) -> Option<u32>
    requires { rom.high ≤ 65536 }
    ensures size { result ≡ (if is_in_rom rom at (size_of cells.now) then Some (size_of cells.now) else None) }
    ensures some { IfSome result (λ size. size ≡ size_of cells.now) }
    ensures inside { OnSome result (is_in_rom rom at (size_of cells.now) ≡ true) }
    ensures low { OnSome result (rom.low ≤ at) }
    ensures high { IfSome result (λ size. at + size ≤ rom.high) }
{
    let size = size_of(cells);
    if at < rom.low || u128::from(at) + size > u128::from(rom.high) {
        return None;
    }
    Some(size as u32)
}

/// The size of a line's statement, where its values are in their ranges, and its bytes in the ROM
/// and no earlier line's.
#[tactic(auto, using(crate::proofs::Covering::rooms))]
fn room_for(pass: &PassOne, rom: Rom, line: u32, cells: &[Cell]) -> Result<u32, AsmFault>
    requires rom { IsRom rom }
    requires pass { IsPassOne rom pass.now }
    requires cells { AreCells cells.now }
    ensures size { result ≡ room_for rom line (known_of pass.now) cells.now }
    ensures some { IfOk result (λ size. size ≡ size_of cells.now) }
    ensures low { OnOk result (rom.low ≤ pass.now.at) }
    ensures high { IfOk result (λ size. pass.now.at + size ≤ rom.high) }
{
    if !all_fine(&pass.names, cells) {
        return Err(at_line(line, AsmCause::OutOfRange));
    }
    let Some(size) = size_in_rom(rom, pass.at, cells) else {
        return Err(at_line(line, AsmCause::OutsideRom));
    };
    if is_given(&pass.taken, (pass.at - rom.low) as usize, size as usize) {
        return Err(at_line(line, AsmCause::Overlap));
    }
    Ok(size)
}

/// Looks at a line that gives the bytes of these cells.
fn look_at_cells<'a>(
    pass: &mut PassOne<'a>,
    rom: Rom,
    line: u32,
    cells: List<Cell<'a>>,
) -> Result<(), AsmFault>
    requires rom { IsRom rom }
    requires pass { IsPassOne rom pass.old }
    requires cells { AreCells cells }
    ensures exact { Answers (λ _. known_of pass.new) result (bytes_looked_at rom line (known_of pass.old) cells.entry) }
    ensures pass { OnOk result (IsPassOne rom pass.new) }
{
    let size = room_for(pass, rom, line, cells.items())?;
    let at = pass.at;
    give(&mut pass.taken, (at - rom.low) as usize, size as usize);
    pass.at = at + size;
    let Ok(()) = pass.placed.push(Placed { line, at, cells }) else {
        return Err(AsmFault::OutOfMemory);
    };
    Ok(())
}

/// What is wrong with a line that is a long list.
#[tactic(auto, using(crate::proofs::LongItems::rooms))]
fn long_list_fault(pass: &PassOne, rom: Rom, line: u32, list: &LongList) -> AsmFault
    requires { IsRom rom }
    ensures { Faults result (room_for rom line (known_of pass.now) list.now) }
{
    list.lemma_long();
    match list.all_fine(&pass.names) {
        Ok(true) => at_line(line, AsmCause::OutsideRom),
        Ok(false) => at_line(line, AsmCause::OutOfRange),
        Err(_) => AsmFault::OutOfMemory,
    }
}

/// Looks at a line that gives bytes.
fn look_at_bytes<'a>(
    pass: &mut PassOne<'a>,
    rom: Rom,
    line: u32,
    cells: Cells<'a>,
) -> Result<(), AsmFault>
    requires rom { IsRom rom }
    requires pass { IsPassOne rom pass.old }
    requires cells { AreCells cells }
    ensures exact { Answers (λ _. known_of pass.new) result (bytes_looked_at rom line (known_of pass.old) cells.entry) }
    ensures pass { OnOk result (IsPassOne rom pass.new) }
{
    match cells.stored() {
        Stored::Each(cells) => look_at_cells(pass, rom, line, cells),
        Stored::Long(list) => Err(long_list_fault(pass, rom, line, &list)),
    }
}

/// Looks at a name that is given a value.
fn look_at_equals<'a>(
    pass: &mut PassOne<'a>,
    rom: Rom,
    line: u32,
    found: Option<i128>,
    name: &Name<'a>,
) -> Result<(), AsmFault>
    requires { IsPassOne rom pass.old }
    ensures exact { Answers (λ _. known_of pass.new) result (equals_looked_at line found (known_of pass.old) name.now) }
    ensures pass { OnOk result (IsPassOne rom pass.new) }
{
    if pass.names.get(name.bytes()).is_some() {
        return Err(at_line(line, AsmCause::TwiceNamed));
    }
    let value = ranged(found, -65_536, 65_535, false, line)?;
    pass.names
        .define(name.bytes(), value)
        .map_err(|_| AsmFault::OutOfMemory)
}

/// Looks at a statement, whose value was found before the line's label was named.
#[tactic(auto, unfolding(crate::specs::Passes::body_looked_at))]
fn look_at_body<'a>(
    pass: &mut PassOne<'a>,
    rom: Rom,
    line: u32,
    found: Option<i128>,
    body: Body<'a>,
) -> Result<(), AsmFault>
    requires rom { IsRom rom }
    requires pass { IsPassOne rom pass.old }
    requires cells { IsBody body }
    ensures exact { Answers (λ _. known_of pass.new) result (body_looked_at rom line found (known_of pass.old) body.entry) }
    ensures pass { OnOk result (IsPassOne rom pass.new) }
{
    match body {
        Body::Nothing => Ok(()),
        Body::Equals(name, _expression) => look_at_equals(pass, rom, line, found, &name),
        Body::Origin(_expression) => {
            pass.at = ranged(found, 0, 65_535, rom.even, line)? as u32;
            Ok(())
        }
        Body::Gives(cells) => look_at_bytes(pass, rom, line, cells),
    }
}

/// Looks at a line: pass 1.
#[tactic(auto, unfolding(crate::specs::Passes::looked_at))]
pub(crate) fn look_at<'a>(
    pass: &mut PassOne<'a>,
    rom: Rom,
    number: u32,
    line: Line<'a>,
) -> Result<(), AsmFault>
    requires rom { IsRom rom }
    requires pass { IsPassOne rom pass.old }
    requires cells { IsBody line.body }
    ensures exact { Answers (λ _. known_of pass.new) result (looked_at rom number (known_of pass.old) line.entry) }
    ensures pass { OnOk result (IsPassOne rom pass.new) }
{
    let found = found_before(&pass.names, &line.body);
    if is_named(&pass.names, &line.label) {
        return Err(at_line(number, AsmCause::TwiceNamed));
    }
    let at = pass.at;
    add_label(&mut pass.names, line.label, at)?;
    look_at_body(pass, rom, number, found, line.body)
}
