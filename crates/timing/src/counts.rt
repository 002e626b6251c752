// Periods run and D opportunities run: two types, so that one cannot be given where the other is
// due.
ghost use Rattle.std.specs.Prelude.{◌≡◌};
ghost use Rattle.timing.specs.Calls.{periods_in_range, opportunities_in_range, all_run, next_period, four_more};

// The most periods that a bus runs.
pub const MOST_PERIODS: u32 = 4_000_000;

// The number of periods run, which is the number of the period that comes next.
#[derive(Clone, Copy)]
pub struct Periods(pub u32);

// The number of D opportunities run.
#[derive(Clone, Copy)]
pub struct Opportunities(pub u32);

impl Periods {
    // Tests whether the count is in its range.
    pub fn in_range(self) -> bool
        ensures { result ≡ periods_in_range self }
    {
        self.0 <= MOST_PERIODS
    }

    // Tests whether no period can be run any more.
    pub fn all_run(self) -> bool
        ensures { result ≡ all_run self }
    {
        MOST_PERIODS <= self.0
    }

    // Counts one period more, where one can be run.
    #[tactic(auto, unfolding(crate::specs::Calls::next_period))]
    pub fn next_period(self) -> Self
        ensures { result ≡ next_period self }
    {
        if MOST_PERIODS <= self.0 {
            self
        } else {
            Periods(self.0 + 1)
        }
    }
}

impl Opportunities {
    // Tests whether they are at most four for each period run.
    pub fn in_range(self, run: Periods) -> bool
        ensures { result ≡ opportunities_in_range run self }
    {
        self.0 as u64 <= 4 * (run.0 as u64)
    }

    // Counts the four of a period in G3.
    #[tactic(auto, unfolding(crate::specs::Calls::four_more))]
    pub fn four_more(self) -> Self
        ensures { result ≡ four_more self }
    {
        if self.0 <= 4 * MOST_PERIODS {
            Opportunities(self.0 + 4)
        } else {
            self
        }
    }
}
