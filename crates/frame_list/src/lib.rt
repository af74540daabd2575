//! Frames: the strokes of the generator, grouped by the writes that start it.
#![tactic(auto)]

mod frame;
mod frames;
mod laws;

pub use frame::{Bounds, Point};
pub use frames::Frames;
pub use laws::{
    each_frame_has_its_strokes, each_stroke_in_one_frame, frames_count_strokes,
    marks_are_writes_of_8840, parts_make_the_whole,
};
