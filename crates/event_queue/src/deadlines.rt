ghost use Rattle.std.specs.Prelude.{◌≡◌, ◌<◌, Some, None, replicate, slice_set};
ghost use Rattle.event_queue.specs.Least.{IsLeastOf, earlier_of};

use std::marker::Model;

/// The names that a deadline can have.
const NAMES: usize = 16;

/// A table with at most one deadline, in clocks, under each of the names 0 to 15.
#[derive(Clone, Copy, Debug, PartialEq, Eq)]
pub struct Deadlines {
    times: [Option<u64>; 16],
}

impl Model for Deadlines {
    ghost use Rattle.std.specs.Prelude.{◌≡◌, ℕ, List, Option, length};

    ghost Value = { List (Option ℕ) };

    ghost view = { λ d. d.times };

    ghost invariant = { λ d. length d.times ≡ 16 };

    ghost inverse = { λ times. record { times = times } };
}

impl Deadlines {
    /// No deadline.
    pub fn new() -> Deadlines
        ensures { result ≡ replicate 16 None }
    {
        Deadlines {
            times: [None; NAMES],
        }
    }

    /// Sets the deadline of a name, in place of the one that it may have had.
    pub fn set(&mut self, name: u8, at: u64)
        requires { name < 16 }
        ensures { self.new ≡ slice_set self.old name (Some at) }
    {
        self.times[name as usize] = Some(at);
    }

    /// Takes a name's deadline away, where it has one.
    pub fn clear(&mut self, name: u8)
        requires { name < 16 }
        ensures { self.new ≡ slice_set self.old name None }
    {
        self.times[name as usize] = None;
    }

    /// The least deadline with its name, at a tie with the least name; none where no name has one.
    pub fn least(&self) -> Option<(u8, u64)>
        ensures { IsLeastOf self.now result }
    {
        let mut best = None;
        for name in (0..16u8).rev() {
            best = earlier(name, self.times[name as usize], best);
        }
        best
    }
}

/// The earlier of a name's deadline and one of a greater name, at a tie the first.
fn earlier(name: u8, time: Option<u64>, best: Option<(u8, u64)>) -> Option<(u8, u64)>
    ensures { result ≡ earlier_of name time best }
{
    match (time, best) {
        (None, best) => best,
        (Some(at), Some((_, later))) if later < at => best,
        (Some(at), _) => Some((name, at)),
    }
}
