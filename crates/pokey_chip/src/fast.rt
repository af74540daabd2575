ghost use Rattle.std.specs.Prelude.{◌≡◌, ◌+◌, ◌≤◌, IfSome};
ghost use Rattle.board_base.specs.Trail.{Extended};
ghost use Rattle.pokey_chip.specs.Tick.{change};
ghost use Rattle.pokey_chip.specs.Tones.{levels_on};

use crate::counts::put_counts;
use crate::device::Moves;
use crate::noise::Noise;
use crate::tick::record_change;
use crate::tones::{Tones, Tuning, levels_on, put_tones};
use crate::voice::Voices;
use board_base::{Device, PokeyState, Trail};

/// A POKEY that goes from underflow to underflow: between two of them only its polynomial registers
/// move, and what the channels and the pots have counted is put right at the end of a move. A
/// channel that isn't heard leaves out the underflows that leave no trace.
pub type FastPokey = Device<PokeyState, ByUnderflows>;

/// From one underflow to the next.
pub struct ByUnderflows;

/// Records the levels of a clock where other channels are on than were `last_on`, or nothing is
/// known of those, and the levels changed.
#[inline(always)]
#[tactic(auto, using(crate::proofs::RecordLemmas::quiet))]
fn record_levels(
    last_on: Option<u8>,
    on: u8,
    last: &mut [u8; 4],
    audc: &[u8; 4],
    clock: u64,
    trail: &mut Trail,
)
    requires room { 1 ≤ trail.old.spare }
    requires last_on { IfSome last_on (λ before. last.old ≡ levels_on before audc.now) }
    ensures last { last.new ≡ levels_on on audc.now }
    ensures records { Extended trail.old trail.new (change clock last.old (levels_on on audc.now)) }
    ensures few { trail.old.spare ≤ trail.new.spare + 1 }
{
    if let Some(before) = last_on {
        if before == on {
            return;
        }
    }
    let levels = levels_on(on, audc);
    record_change(last, &levels, clock, trail);
    *last = levels;
}

impl Moves for ByUnderflows {
    // The first clock is looked at always, since a state that was taken on may have other levels
    // than those that its channels have. A function of its own gets better registers from LLVM than
    // one that is put into its caller.
    #[inline(never)]
    fn run(state: &mut PokeyState, from: u64, n: u64, trail: &mut Trail) {
        if n == 0 {
            return;
        }
        let start = *state;
        let tuning = Tuning::of(&start);
        let mut noise = Noise::of(&start);
        let mut voices = Voices::of(&start).skipping(&start, noise, n);
        let mut tones = Tones::of(&start);
        let mut last = start.last;
        let mut last_on = None;
        let mut at = 1;
        while at <= n {
            noise = noise.reaching(&start, at);
            tones = tones.after(&tuning, noise.outputs(&start, at), voices.due(at));
            let on = tones.on(&tuning);
            record_levels(last_on, on, &mut last, &start.audc, from + (at - 1), trail);
            last_on = Some(on);
            voices = voices.after(at);
            at = voices.soonest();
        }
        noise.put(state, n);
        put_tones(state, tones, last);
        put_counts(state, &start, &voices, n);
    }
}
