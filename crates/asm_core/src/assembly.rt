ghost use Rattle.std.specs.Prelude.{◌≡◌, ◌≢◌, ◌+◌, ◌^◌, ◌<◌, ◌≤◌, Err, IfErr, IfOk, OnOk, length};
ghost use Rattle.asm_text.specs.Answers.{Answers};
ghost use Rattle.asm_text.specs.Lines.{lines_with_ends};
ghost use Rattle.asm_text.specs.declared.fault.AsmFault.TheVariants.{OutOfMemory};
ghost use Rattle.asm_text.specs.declared.scan.TheConstants.{TEXT_LIMIT};
ghost use Rattle.asm_core.specs.PassOne.{IsRom, IsPassOne, known_of};
ghost use Rattle.asm_core.specs.Forms.{IsBody};
ghost use Rattle.asm_core.specs.Images.{assembled, at_the_start, given_by};
ghost use Rattle.asm_core.specs.Passes.{pass_one, line_read, text_looked_at, words_read};

use crate::line::read_line;
use crate::pass_one::{PassOne, at_line, look_at};
use crate::pass_two::write_lines;
use crate::{Dialect, Line, List, Listing, Names, Rom, Words};
use asm_text::{AsmCause, AsmFault, TEXT_LIMIT, code_of, read_kind, split_piece};
use rom_image::Image;
use std::alloc::Global;

/// The words of a line, where all its pieces are tokens or blanks.
#[tactic(auto, using(crate::proofs::Checking::lines))]
fn read_words<'a>(text: &'a [u8], number: u32) -> Result<Words<'a>, AsmFault>
    ensures words { Answers (λ words. words) result (words_read number text.now) }
{
    let code = code_of(text);
    let mut rest = code;
    'pieces: while !rest.is_empty() {
        let (piece, after) = split_piece(rest);
        if let Err(cause) = read_kind(piece) {
            return Err(at_line(number, cause));
        }
        rest = after;
    }
    Ok(Words::new(code))
}

/// A line, as its language reads it.
fn read_text<'a, D: Dialect>(
    alloc: Global,
    dialect: &D,
    number: u32,
    pass: &PassOne<'a>,
    text: &'a [u8],
) -> Result<Line<'a>, AsmFault>
    requires at { pass.now.at ≤ 65536 }
    ensures line { Answers (λ line. line) result (line_read D.language number (known_of pass.now) text.now) }
    ensures cells { IfOk result (λ line. IsBody line.body) }
{
    let words = read_words(text, number)?;
    match read_line(alloc, dialect, &words, &pass.names, pass.at) {
        Ok(Some(line)) => Ok(line),
        Ok(None) => Err(at_line(number, AsmCause::NoSuchForm)),
        Err(_) => Err(AsmFault::OutOfMemory),
    }
}

/// Looks at a line's text: pass 1.
#[tactic(auto, unfolding(crate::specs::Passes::text_looked_at))]
fn look_at_text<'a, D: Dialect>(
    alloc: Global,
    dialect: &D,
    rom: Rom,
    number: u32,
    pass: &mut PassOne<'a>,
    text: &'a [u8],
) -> Result<(), AsmFault>
    requires rom { IsRom rom }
    requires pass { IsPassOne rom pass.old }
    ensures exact { Answers (λ _. known_of pass.new) result (text_looked_at D.language rom number (known_of pass.old) text.now) }
    ensures pass { OnOk result (IsPassOne rom pass.new) }
{
    let line = read_text(alloc, dialect, number, pass, text)?;
    look_at(pass, rom, number, line)
}

/// Before the first line nothing is known, and the address is 0.
fn start<'a>(alloc: Global, rom: Rom) -> Result<PassOne<'a>, AsmFault>
    requires { IsRom rom }
    ensures known { IfOk result (λ pass. known_of pass ≡ at_the_start) }
    ensures pass { IfOk result (λ pass. IsPassOne rom pass) }
    ensures fault { IfErr result (λ fault. fault ≡ OutOfMemory) }
{
    let Ok(taken) = vec![in alloc; false; (rom.high - rom.low) as usize] else {
        return Err(AsmFault::OutOfMemory);
    };
    Ok(PassOne {
        names: Names::new(alloc),
        at: 0,
        placed: List::new(alloc),
        taken,
    })
}

/// Pass 1 over the lines of a text.
#[tactic(auto, using(crate::proofs::Lists::texts), unfolding(crate::specs::Passes::pass_one))]
fn look_at_lines<'a, D: Dialect>(
    alloc: Global,
    dialect: &D,
    text: &'a [u8],
    rom: Rom,
) -> Result<PassOne<'a>, AsmFault>
    requires text { length text.now ≤ TEXT_LIMIT }
    requires rom { IsRom rom }
    ensures known { Answers known_of result (pass_one D.language rom 1 at_the_start (lines_with_ends text.now)) }
    ensures pass { IfOk result (λ pass. IsPassOne rom pass) }
{
    let mut pass = start(alloc, rom)?;
    let mut rest = text;
    let mut number = 1;
    'lines: while !rest.is_empty() {
        let (line, after) = asm_text::split_line(rest);
        look_at_text(alloc, dialect, rom, number, &mut pass, line)?;
        number += 1;
        rest = after;
    }
    Ok(pass)
}

/// Assembles a source of at most `TEXT_LIMIT` bytes into an image, whose other bytes stay, and
/// lists the lines that give bytes.
///
/// It is refused for its first bad line: of all lines, looked at under the names of earlier ones,
/// and then of those that give bytes, under all names. After a refusal the image's bytes are open.
#[tactic(auto, unfolding(crate::specs::Images::given_by))]
pub fn assemble<D: Dialect>(
    alloc: Global,
    dialect: &D,
    text: &[u8],
    rom: Rom,
    image: &mut Image,
) -> Result<Listing, AsmFault>
    requires { IsRom rom }
    ensures { Answers (λ listing. (image.new, listing)) result (assembled D.language rom text.now image.old) }
{
    if text.len() > TEXT_LIMIT {
        return Err(AsmFault::TooLong);
    }
    let pass = look_at_lines(alloc, dialect, text, rom)?;
    write_lines(alloc, &pass.names, rom, pass.placed.items(), image)
}
