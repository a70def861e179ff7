// A plan whose head check 3 takes, and the rest of its checks.

ghost use Rattle.std.specs.Prelude.{◌≡◌, ℕ, true, ◌≤◌, length, get_or, pos, eqb, sum_by, IfOk};
ghost use Rattle.refusal.specs.Number.{refusal_in, number_in, Numbering};
ghost use Rattle.whole.specs.Range.{million};
ghost use Rattle.whole.specs.Test.{all, is_between};
ghost use Rattle.plan.specs.Held.{amounts_in, Typed};
ghost use Rattle.plan.specs.Numbers.{numbers};
ghost use Rattle.plan.specs.Refusal.{most, payments_ok, outflows_ok, amounts_ok, untils_ok, rates_ok, amounts_refusal, rates_refusal, refusal_with, Head};

use crate::{AcceptedPlan, Plan, all_between};
use refusal::Refusal;

#[derive(Clone, Copy)]
pub struct HeadedPlan<'a> {
    pub plan: &'a Plan,
    ghost head: { Head (numbers plan.now) },
}

// The most that an amount is, and the most that a rate is.
const MOST: i64 = 20_000_000_000;

const TOP: i64 = 200_000;

// The first n amounts of a kind, where it is held, are at least 0 and at most MOST.
fn kind_ok<const N: usize>(kind: &Option<[i64; N]>, n: usize) -> bool
    requires { n ≤ N }
    ensures { result ≡ all n (λ k. is_between (pos 0) (pos most) (get_or (amounts_in kind.now) k (pos 0))) }
{
    match kind {
        Some(amounts) => all_between(&amounts[..n], 0, MOST),
        None => true,
    }
}

// Some shares, of which there are few enough that their sum never wraps, make 1,000,000 together.
fn is_whole(shares: &[u32]) -> bool
    requires { length shares.now ≤ 30 }
    ensures { result ≡ eqb (sum_by (λ share. share) shares.now) million }
{
    shares.iter().map(|share| u64::from(*share)).sum::<u64>() == 1_000_000
}

impl<'a> HeadedPlan<'a> {
    // Check 6, the payments.
    fn payments_ok(self) -> bool
        ensures { result ≡ payments_ok (numbers self.entry.plan.now) }
    {
        let years = self.plan.years;
        let rows = &self.plan.instrument[..self.plan.instruments];
        rows.iter()
            .all(|row| all_between(&row.payments(years)[..years], 0, MOST))
    }

    // Check 6, the outflows.
    fn outflows_ok(self) -> bool
        ensures { result ≡ outflows_ok (numbers self.entry.plan.now) }
    {
        all_between(&self.plan.outflows[..self.plan.years], -MOST, MOST)
    }

    // Check 6.
    fn amounts_ok(self) -> bool
        ensures { result ≡ amounts_ok (numbers self.entry.plan.now) }
    {
        let plan = self.plan;
        self.payments_ok()
            && self.outflows_ok()
            && kind_ok(&plan.opening, plan.years)
            && kind_ok(&plan.cost, plan.instruments)
    }

    // Check 13.
    fn untils_ok(self) -> bool
        ensures is { result ≡ untils_ok (numbers self.entry.plan.now) }
        ensures typed { result ≡ true → Typed self.entry.plan.now }
    {
        let rows = &self.plan.pattern[..self.plan.patterns];
        rows.iter().all(|row| row.until_ok())
    }

    // Check 8.
    fn rates_ok(self) -> bool
        ensures { result ≡ rates_ok (numbers self.entry.plan.now) }
    {
        let years = self.plan.years;
        let rows = &self.plan.pattern[..self.plan.patterns];
        rows.iter()
            .all(|row| all_between(&row.rates(years)[..years - 1], 0, TOP))
    }

    // ---- the checks in their order

    // Checks 6 and 7.
    fn check_amounts(self) -> Result<(), Refusal>
        ensures { refusal_in result ≡ amounts_refusal (numbers self.entry.plan.now) }
    {
        if !self.amounts_ok() {
            return Err(Refusal::Amount);
        }
        if !is_whole(&self.plan.rollover[..self.plan.terms]) {
            return Err(Refusal::Rollover);
        }
        Ok(())
    }

    // Checks 13 and 8.
    fn check_rates(self) -> Result<(), Refusal>
        ensures is { refusal_in result ≡ rates_refusal (numbers self.entry.plan.now) }
        ensures typed { IfOk result (λ done. Typed self.entry.plan.now) }
    {
        if !self.untils_ok() {
            return Err(Refusal::Until);
        }
        if !self.rates_ok() {
            return Err(Refusal::Rate);
        }
        Ok(())
    }

    // The rest of the checks: the first of 6 to 9, with 13 right before 8, that the plan fails. `lists` is what a call says of its own lists,
    // by errors of any kind that a refusal turns into; it comes after 8 and before 9.
    pub fn accepted<E: From<Refusal> + Drop>(
        self,
        lists: Result<(), E>,
    ) -> Result<AcceptedPlan<'a>, E>
        ensures is { (number : E → ℕ) → Numbering E.from_gives number → number_in number result ≡ refusal_with (numbers self.entry.plan.now) (number_in number lists) }
        ensures typed { IfOk result (λ accepted. Typed self.entry.plan.now) }
        ensures plan { IfOk result (λ accepted. accepted.plan.now ≡ self.entry.plan.now) }
    {
        self.check_amounts()?;
        self.check_rates()?;
        lists?;
        if !is_whole(&self.plan.allocation[..self.plan.instruments]) {
            return Err(E::from(Refusal::Allocation));
        }
        Ok(AcceptedPlan { plan: self.plan })
    }
}
