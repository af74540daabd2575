//! What a sink or a shelf was given. The type exists in proofs alone: it takes no memory, and its
//! methods do nothing at run time.
ghost use Rattle.std.specs.Prelude.{◌≡◌, ℕ, List, [], ◌∷◌, ◌++◌};
ghost use Rattle.std.specs.Borrow.{ftrue};
ghost use Rattle.command_calls.specs.Bytes.{all_bytes};
ghost use Rattle.std.specs.Coded.{coded×, coded_list, coded_ℕ};

use std::marker::Model;

/// All pieces that were given, in order. Those of a sink have no names, and those of a shelf have
/// the names of its stores.
#[derive(Drop)]
pub(crate) struct Written {
    ghost pieces: { List (List ℕ × List ℕ) } by { coded_list (coded× (coded_list coded_ℕ) (coded_list coded_ℕ)) },
}

impl Model for Written {
    ghost also_owns = { λ _. ftrue };
}

/// A name and bytes.
#[derive(Clone, Copy, Drop)]
pub(crate) struct Piece<'a> {
    pub(crate) name: &'a str,
    pub(crate) bytes: &'a [u8],
}

impl Written {
    /// Nothing yet.
    pub(crate) fn new() -> Written
        ensures { result.pieces ≡ [] }
    {
        Written {}
    }

    /// With a piece more.
    pub(crate) fn then(&self, _piece: &Piece<'_>) -> Written
        ensures { result.pieces ≡ self.now.pieces ++ (_piece.now.name.now, _piece.now.bytes.now) ∷ [] }
    {
        Written {}
    }

    /// With bytes more, which have no name.
    #[tactic(auto, using(crate::proofs::StoreLaws::more_bytes))]
    pub(crate) fn then_bytes(&self, bytes: &[u8]) -> Written
        ensures { all_bytes result.pieces ≡ all_bytes self.now.pieces ++ bytes.now }
    {
        self.then(&Piece { name: "", bytes })
    }
}
