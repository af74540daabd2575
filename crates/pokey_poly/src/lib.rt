//! The polynomial registers of the POKEY, from which its noises and random numbers come.
#![tactic(auto)]

mod laws;
mod poly;

pub use laws::poly_numbers;
pub use poly::{Poly, REACH};
