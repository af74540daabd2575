ghost use Rattle.std.specs.Prelude.{◌≡◌, ◌+◌, ◌^◌, ◌<◌, ◌≤◌, IfOk, OnOk, length, ◌++◌};
ghost use Rattle.workload_gen.specs.Draws.{draw_of, next_of, number_after};
ghost use Rattle.workload_gen.specs.Words.{choices, choices_at, drawn_word, drawn_words, words_of};

use crate::draws::Draws;
use board_base::OutOfMemory;
use std::alloc::Global;

/// The words of the generator that one draw chooses from: so many, from the least one on.
#[derive(Clone, Copy)]
pub struct Choice {
    pub least: u16,
    pub count: u16,
}

/// CNTR.
const CENTRE: u16 = 0x8000;

/// SCAL: the binary scale is 1, and the draw gives the linear one.
const SCALE: Choice = Choice {
    least: 0x7100,
    count: 128,
};

/// STAT: the draw gives the colour and the intensity.
const COLOUR: Choice = Choice {
    least: 0x6000,
    count: 256,
};

/// SVEC: the draw gives both distances and the brightness.
const VECTOR: Choice = Choice {
    least: 0x4000,
    count: 8192,
};

/// HALT.
const HALT: u16 = 0x2000;

/// The vectors of the picture.
const VECTORS: u16 = 300;

/// A colour stands before each vector whose number is a multiple of this.
const COLOUR_EVERY: u16 = 30;

/// The word that the next draw chooses.
fn drawn_word(draws: &mut Draws, choice: Choice) -> u16
    requires some { 0 < choice.count }
    requires room { choice.least + choice.count ≤ 2 ^ 16 }
    ensures word { result ≡ drawn_word choice (draw_of (next_of draws.old)) }
    ensures number { draws.new ≡ next_of draws.old }
{
    choice.least + draws.draw() % choice.count
}

/// Adds vector `k`, and the colour before it where it has one.
#[tactic(auto, using(crate::proofs::WordLaws::steps), unfolding(crate::specs::Words::drawn_words, crate::specs::Draws::draws_of, crate::specs::Draws::number_after))]
fn push_vector(words: &mut Vec<u16>, draws: &mut Draws, k: u16) -> Result<(), OutOfMemory>
    ensures words { OnOk result (words.new.items ≡ words.old.items ++ drawn_words draws.old (choices_at k)) }
    ensures number { OnOk result (draws.new ≡ number_after draws.old (length (choices_at k))) }
{
    if k % COLOUR_EVERY == 0 {
        words.push(drawn_word(draws, COLOUR))?;
    }
    words.push(drawn_word(draws, VECTOR))?;
    Ok(())
}

/// The words of the vector ROM: a picture of short vectors.
#[tactic(auto, using(crate::proofs::WordLaws::vectors), unfolding(crate::specs::Words::words_of))]
pub fn vector_words(alloc: Global, draws: &mut Draws) -> Result<Vec<u16>, OutOfMemory>
    ensures words { IfOk result (λ made. made.items ≡ words_of draws.old) }
    ensures number { OnOk result (draws.new ≡ number_after draws.old (length choices)) }
{
    let mut words = Vec::new(alloc);
    words.push(CENTRE)?;
    words.push(drawn_word(draws, SCALE))?;
    'vectors: for k in 0..VECTORS {
        push_vector(&mut words, draws, k)?;
    }
    words.push(HALT)?;
    Ok(words)
}
