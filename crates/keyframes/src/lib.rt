//! Boards kept along a run, in pages that they share where they are equal.
#![tactic(auto)]

mod frame;
pub mod keyframes;
pub mod laws;
mod pages;
mod seeking;
mod store;

pub use keyframes::{FRAMES_MIN, Keyframes, PAGES_MIN};
pub use laws::{engines_begin_at_their_board, keyframe_numbers};
pub use pages::BOARD_PAGES;
pub use seeking::{go_to, keep_board, keep_start, seek};
pub use store::FRAMES_LIMIT;
