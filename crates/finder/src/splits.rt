// Four shares of an allocation.

ghost use Rattle.std.specs.Prelude.{◌≡◌, ◌≤◌, ◌<◌, get_or, set, replicate};
ghost use Rattle.whole.specs.Range.{million};
ghost use Rattle.whole.specs.Sum.{sum_ℕ};
ghost use Rattle.finder.specs.Lines.{wide_of};

// At most 1,000,000 together.
#[derive(Clone, Copy)]
pub struct Split {
    pub shares: [u32; 4],
    ghost few: { sum_ℕ 4 (λ j. get_or shares j 0) ≤ million },
}

impl Split {
    // Nothing is placed.
    pub fn none() -> Split
        ensures { result.shares ≡ replicate 4 0 }
    {
        Split { shares: [0; 4] }
    }

    // The shares with another one at a place. (Each is written anew: what is set in place and copied at once has to wait, docs/DECISIONS.md.)
    pub fn with(self, at: usize, share: u32) -> Split
        requires at_bound { at < 4 }
        requires few { sum_ℕ 4 (λ j. get_or (set self.shares at share) j 0) ≤ million }
        ensures { result.shares ≡ set self.shares at share }
    {
        Split {
            shares: std::array::from_fn(|j| if j == at { share } else { self.shares[j] }),
        }
    }

    // The shares in the array of an allocation.
    pub fn widened(self) -> [u32; 16]
        ensures { result ≡ wide_of self.shares }
    {
        std::array::from_fn(|j| if j < 4 { self.shares[j] } else { 0 })
    }
}
