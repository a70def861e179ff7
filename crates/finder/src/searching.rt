// The recursion over the instruments.

ghost use Rattle.std.specs.Prelude.{◌≡◌, ◌≤◌, get_or};
ghost use Rattle.whole.specs.Range.{million};
ghost use Rattle.whole.specs.Sum.{sum_ℕ};
ghost use Rattle.finder.specs.Find.{first_that};
ghost use Rattle.finder.specs.Placing.{Placing, placements};
ghost use Rattle.finder.specs.Search.{Looks, below_none, looked, passes, split_shown};

use crate::lines::Line;
use crate::looks::Look;
use crate::splits::Split;
use patterns::{Allocation, Common};
use reckoning::NewMoney;

// What a search goes by: what all patterns share, the rates and the line of each pattern, and a part of 1,000,000.
#[derive(Clone, Copy)]
pub struct Search<'a> {
    pub common: &'a Common,
    pub rates: &'a [NewMoney],
    pub lines: &'a [Line],
    pub unit: u32,
    ghost instruments_few: { common.now.instruments ≤ 4 },
    ghost looks: { Looks common.now },
}

impl Search<'_> {
    // The shares lie below none of the lines.
    fn below_none(&self, split: Split) -> bool
        ensures { result ≡ below_none self.now.lines.now split.shares }
    {
        self.lines.iter().all(|line| line.height(split) >= 0)
    }

    // Check 11 takes the fund of the allocation of these shares in each pattern, and it is zero or more; the first where it is not ends the look.
    fn look(&self, split: Split) -> bool
        requires { sum_ℕ self.now.common.now.instruments (λ j. get_or split.shares j 0) ≡ million }
        ensures { result ≡ looked self.now.common.now self.now.rates.now split.shares }
    {
        let allocation = Allocation {
            shares: split.widened(),
        };
        let look = Look {
            common: self.common,
            allocation: &allocation,
            flow: &self.common.flow(&allocation),
            left: self.common.left(&allocation),
        };
        self.rates.iter().all(|i| look.passes(i))
    }

    // Places the parts left on the instrument at `at` and the others behind it, more on the first before fewer, until the shares pass.
    pub fn from(&self, split: Split, at: usize, others: usize, parts: u32) -> Option<Split>
        requires { Placing self.now.common.now.instruments split.shares at others parts self.now.unit }
        ensures { split_shown result ≡ first_that (passes self.now.common.now self.now.rates.now self.now.lines.now) (placements self.now.unit split.shares at others parts) }
    {
        if others == 0 {
            let last = split.with(at, parts * self.unit);
            return if self.below_none(last) && self.look(last) {
                Some(last)
            } else {
                None
            };
        }
        // kept: s counts parts, and no list stands behind them
        for s in (0..parts + 1).rev() {
            let next = split.with(at, s * self.unit);
            if let Some(found) = self.from(next, at + 1, others - 1, parts - s) {
                return Some(found);
            }
        }
        None
    }
}
