/// The counts of one routine: how often it was entered, and the clocks and device accesses that its
/// own instructions took. A count stands at the greatest `u64`.
#[derive(Clone, Copy)]
pub struct Counts {
    pub entries: u64,
    pub clocks: u64,
    pub accesses: u64,
}

impl Counts {
    ghost use Rattle.std.specs.Prelude.{◌≡◌};
    ghost use Rattle.cycle_profile.specs.Counts.{more_entered, more_taken, no_counts};

    /// Zeros.
    pub(crate) const fn none() -> Counts
        ensures { result ≡ no_counts }
    {
        Counts {
            entries: 0,
            clocks: 0,
            accesses: 0,
        }
    }

    /// One entry more.
    pub(crate) fn entered(self) -> Counts
        ensures { result ≡ more_entered self }
    {
        Counts {
            entries: self.entries.saturating_add(1),
            ..self
        }
    }

    /// So many clocks and device accesses more.
    pub(crate) fn taken(self, clocks: u64, accesses: u64) -> Counts
        ensures { result ≡ more_taken self clocks accesses }
    {
        Counts {
            clocks: self.clocks.saturating_add(clocks),
            accesses: self.accesses.saturating_add(accesses),
            ..self
        }
    }
}
