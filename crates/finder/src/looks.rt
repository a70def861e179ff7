// A look at one allocation.

ghost use Rattle.std.specs.Prelude.{◌≡◌};
ghost use Rattle.reckoning.specs.Arrays.{rates_of};
ghost use Rattle.patterns.specs.Arrays.{shared_in};
ghost use Rattle.finder.specs.Lines.{Reckonable, fund_passes};

use patterns::{Allocation, Common};
use reckoning::{Flow, NewMoney};

// What all patterns share, an allocation, its flow and what is left of it.
#[derive(Clone, Copy)]
pub struct Look<'a> {
    pub common: &'a Common,
    pub allocation: &'a Allocation,
    pub flow: &'a Flow,
    pub left: i64,
    ghost reckonable: { Reckonable (shared_in common.now allocation.now.shares) flow.now.amounts left },
}

impl Look<'_> {
    // Check 11 takes the allocation's fund at the rates i, and it is zero or more.
    pub fn passes(&self, i: &NewMoney) -> bool
        ensures { result ≡ fund_passes (shared_in self.now.common.now self.now.allocation.now.shares) (rates_of i.now.rates) }
    {
        match self.common.fund(self.flow, self.left, i) {
            Ok(fund) => fund >= 0,
            Err(_) => false,
        }
    }
}
