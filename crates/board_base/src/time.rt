ghost use Rattle.std.specs.Prelude.{◌≡◌};
ghost use Rattle.board_base.specs.Sooner.{sooner_of};

/// The lesser of two times, either of which may never come (`None`).
#[inline(always)]
#[tactic(auto, unfolding(crate::specs::Sooner::sooner_of))]
pub fn sooner(first: Option<u64>, second: Option<u64>) -> Option<u64>
    ensures { result ≡ sooner_of first second }
{
    match (first, second) {
        (Some(first), Some(second)) => Some(first.min(second)),
        (None, time) | (time, None) => time,
    }
}
