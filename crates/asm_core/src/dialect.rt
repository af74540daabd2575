use crate::{Cells, Names, Words};
use board_base::OutOfMemory;
use std::alloc::Global;

/// The addresses whose bytes a source may give, from `low` up to `high`, which isn't one of them,
/// and whether its bytes begin at even addresses alone.
#[derive(Clone, Copy, Debug, PartialEq, Eq, Drop)]
pub struct Rom {
    pub low: u32,
    pub high: u32,
    pub even: bool,
}

/// What a language makes of a statement.
#[derive(Drop)]
pub enum Form<'a> {
    /// The first word isn't one of the language's own.
    NotReserved,
    /// The first word is the language's own, and what stands behind it is wrong.
    NoSuchForm,
    /// The statement gives the bytes of these cells.
    Gives(Cells<'a>),
}

/// A language of statements.
pub trait Dialect {
    ghost use Rattle.std.specs.Prelude.{◌≡◌, ◌≤◌, IfOk};
    ghost use Rattle.asm_core.specs.Lines.{Language};
    ghost use Rattle.asm_core.specs.Forms.{IsForm};

    ghost language: { Language };

    /// Reads a statement by its first word and those behind it, under the names of earlier lines
    /// and at its address.
    fn read_statement<'a>(
        &self,
        alloc: Global,
        first: &'a [u8],
        rest: &Words<'a>,
        names: &Names<'a>,
        at: u32,
    ) -> Result<Form<'a>, OutOfMemory>
        requires at { at ≤ 65536 }
        ensures form { IfOk result (λ form. form ≡ language names.now at first.now rest.now) }
        ensures cells { IfOk result (λ form. IsForm form) };
}
