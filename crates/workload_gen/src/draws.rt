ghost use Rattle.std.specs.Prelude.{◌≡◌};
ghost use Rattle.workload_gen.specs.Draws.{draw_of, next_of};

use std::marker::Model;

/// What a number is multiplied by for the next.
const MULTIPLIER: u64 = 6_364_136_223_846_793_005;

/// What is added then.
const INCREMENT: u64 = 1_442_695_040_888_963_407;

/// A linear congruential generator of 64 bits: its draws are the highest sixteen bits of its
/// numbers.
#[derive(Drop)]
pub struct Draws {
    number: u64,
}

impl Model for Draws {
    ghost use Rattle.std.specs.Prelude.{ℕ};

    ghost Value = { ℕ };

    ghost view = { λ d. d.number };
}

impl Draws {
    /// The draws that follow a seed.
    pub fn new(seed: u64) -> Draws
        ensures { result ≡ seed }
    {
        Draws { number: seed }
    }

    /// The next draw.
    #[tactic(auto, unfolding(crate::specs::Draws::draw_of, crate::specs::Draws::next_of))]
    pub fn draw(&mut self) -> u16
        ensures number { self.new ≡ next_of self.old }
        ensures value { result ≡ draw_of (next_of self.old) }
    {
        self.number = self.number.wrapping_mul(MULTIPLIER).wrapping_add(INCREMENT);
        (self.number >> 48) as u16
    }
}
