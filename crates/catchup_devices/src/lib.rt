//! The devices with the clocks up to which they were moved: each is brought to a clock in one move,
//! and in none where it stands there.
#![tactic(auto)]

pub mod catch_up;
pub mod sound;
pub mod vector;

pub use catch_up::CatchUp;
pub use sound::SoundCatchUp;
pub use vector::VectorCatchUp;
