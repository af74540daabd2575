//! What holds of keyframes and their numbers. Each function states one law, and does nothing.
ghost use Rattle.std.specs.Prelude.{◌≡◌, ℕ, Bool, List};
ghost use Rattle.board_base.specs.Board.{BoardValue, IsBoard};
ghost use Rattle.lockstep_board.specs.Lockstep.{Board};
ghost use Rattle.lockstep_board.specs.Peripherals.{peripherals_of};
ghost use Rattle.keyframes.specs.Seeking.{over_image};

use crate::keyframes::{FRAMES_MIN, PAGES_MIN};
use crate::pages::{BOARD_PAGES, RAM_PAGES};
use crate::store::FRAMES_LIMIT;

/// The numbers of keyframes, each by its name in the definitions.
pub fn keyframe_numbers()
    ensures board { (BOARD_PAGES ≡ 16) × (RAM_PAGES ≡ 8) }
    ensures pages { PAGES_MIN ≡ 32 }
    ensures frames { (FRAMES_MIN ≡ 2) × (FRAMES_LIMIT ≡ 4096) }
{}

/// A new engine stands at the board of its state: over the image of that board the state is the
/// board itself.
pub fn engines_begin_at_their_board()
    ensures new { (image : List ℕ) → (wired : Bool) → (state : BoardValue) → IsBoard state
        → (let b : Board = record { cpu = state.cpu; peripherals = peripherals_of image wired state } in over_image b state ≡ b) }
{}
