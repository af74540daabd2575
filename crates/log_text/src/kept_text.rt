//! Texts of numbers that most lines repeat.
ghost use Rattle.std.specs.Prelude.{◌≡◌, ◌≤◌, ◌∷◌, ◌++◌, length, decimal};
ghost use Rattle.std.specs.Fmt.{signed_decimal};

use std::marker::Model;
use text_line::{Line, PIECE};

/// A blank and a number, whose text is kept.
#[derive(Drop)]
pub(crate) struct NumberText {
    n: u64,
    text: Line,
}

impl Model for NumberText {
    ghost use Rattle.std.specs.Prelude.{◌≡◌, ◌≤◌, ℕ, List, ◌∷◌, length, decimal};
    ghost use Rattle.text_line.specs.declared.line.TheConstants.{PIECE};

    ghost Value = { List ℕ };

    ghost view = { λ k. k.text };

    ghost invariant = { λ k. (k.text ≡ 32 ∷ decimal k.n) × (length k.text ≤ PIECE) };
}

impl NumberText {
    /// The text of 0.
    pub(crate) fn zero() -> NumberText {
        NumberText {
            n: 0,
            text: Line::empty().number(0),
        }
    }

    /// The text.
    #[inline(always)]
    pub(crate) fn text(&self) -> &Line
        ensures { result.now ≡ self.now }
    {
        &self.text
    }

    /// Puts a number in place of what stands. The text is written only where it is another number.
    #[inline(always)]
    pub(crate) fn set(&mut self, n: u64)
        ensures text { self.new ≡ 32 ∷ decimal n }
        ensures short { length self.new ≤ PIECE }
    {
        if n == self.n {
            return;
        }
        self.text.clear();
        self.text.put_number(n);
        self.n = n;
    }
}

/// The two numbers of a point with a blank before each, whose text is kept.
#[derive(Drop)]
pub(crate) struct PointText {
    x: i32,
    y: i32,
    text: Line,
}

impl Model for PointText {
    ghost use Rattle.std.specs.Prelude.{◌≡◌, ◌≤◌, ℕ, List, ◌∷◌, ◌++◌, length};
    ghost use Rattle.std.specs.Fmt.{signed_decimal};
    ghost use Rattle.text_line.specs.declared.line.TheConstants.{PIECE};

    ghost Value = { List ℕ };

    ghost view = { λ k. k.text };

    ghost invariant = { λ k. (k.text ≡ 32 ∷ signed_decimal k.x ++ 32 ∷ signed_decimal k.y) × (length k.text ≤ PIECE) };
}

impl PointText {
    /// The text of the centre.
    pub(crate) fn centre() -> PointText {
        PointText {
            x: 0,
            y: 0,
            text: Line::empty().signed(0).signed(0),
        }
    }

    /// The text.
    #[inline(always)]
    pub(crate) fn text(&self) -> &Line
        ensures { result.now ≡ self.now }
    {
        &self.text
    }

    /// Puts a point in place of what stands. The text is written only where it is another point.
    #[inline(always)]
    pub(crate) fn set(&mut self, x: i32, y: i32)
        ensures text { self.new ≡ 32 ∷ signed_decimal x ++ 32 ∷ signed_decimal y }
        ensures short { length self.new ≤ PIECE }
    {
        if x == self.x && y == self.y {
            return;
        }
        self.text.clear();
        self.text.put_signed(x);
        self.text.put_signed(y);
        self.x = x;
        self.y = y;
    }
}
