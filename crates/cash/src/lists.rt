// The two lists of rates of a call, as they come.

ghost use Rattle.std.specs.Prelude.{◌≡◌, ◌+◌, ◌≤◌, IfOk, length, true, pos};
ghost use Rattle.whole.specs.Test.{is_between};
ghost use Rattle.refusal.specs.Number.{refusal_in};
ghost use Rattle.reckoning.specs.Arrays.{rates_of};
ghost use Rattle.plan.specs.Refusal.{top};
ghost use Rattle.cash.specs.Call.{lengths_refusal, list_ok, is_in_order, lists_refusal};

use reckoning::NewMoney;
use refusal::Refusal;
use std::array;

// Two lists of the rates of years 2 to N.
#[derive(Clone, Copy)]
pub struct TwoLists<'a> {
    pub lending: &'a [i32],
    pub borrowing: &'a [i32],
    ghost alike: { length lending.now ≡ length borrowing.now },
}

// Check 8 of a rate: it is 0 to 200,000.
fn is_rate(rate: i32) -> bool
    ensures { result ≡ is_between (pos 0) (pos top) rate }
{
    (0..=200_000).contains(&rate)
}

// Check 8 of a list.
fn is_in_range(list: &[i32]) -> bool
    ensures { result ≡ list_ok (length list.now + 1) (rates_of list.now) }
{
    list.iter().all(|rate| is_rate(*rate))
}

impl<'a> TwoLists<'a> {
    // Check 5: each list has N - 1 rates.
    // kept: how long the lists have to be is what is asked
    pub fn of(
        years: usize,
        lending: &'a [i32],
        borrowing: &'a [i32],
    ) -> Result<TwoLists<'a>, Refusal>
        requires { 1 ≤ years }
        ensures is { refusal_in result ≡ lengths_refusal years lending.now borrowing.now }
        ensures same { IfOk result (λ lists. (lists.lending.now ≡ lending.now) × (lists.borrowing.now ≡ borrowing.now)) }
    {
        if lending.len() != years - 1 || borrowing.len() != years - 1 {
            return Err(Refusal::Size);
        }
        Ok(TwoLists { lending, borrowing })
    }

    // Check 14: no borrowing rate is below the lending rate of its year.
    fn is_in_order(&self) -> bool
        ensures { result ≡ is_in_order (length self.now.lending.now + 1) (rates_of self.now.lending.now) (rates_of self.now.borrowing.now) }
    {
        self.lending
            .iter()
            .zip(self.borrowing)
            .all(|(lending, borrowing)| lending <= borrowing)
    }

    // Checks 8 and 14 of the lists.
    pub fn check(&self) -> Result<(), Refusal>
        ensures { refusal_in result ≡ lists_refusal (length self.now.lending.now + 1) (rates_of self.now.lending.now) (rates_of self.now.borrowing.now) }
    {
        if !is_in_range(self.lending) || !is_in_range(self.borrowing) {
            return Err(Refusal::Rate);
        }
        if !self.is_in_order() {
            return Err(Refusal::Lists);
        }
        Ok(())
    }
}

// The rates of a list of at most thirty that check 8 takes, as what new money earns.
pub fn money_of(list: &[i32]) -> NewMoney
    requires few { length list.now ≤ 30 }
    requires taken { list_ok (length list.now + 1) (rates_of list.now) ≡ true }
    ensures { rates_of result.rates ≡ rates_of list.now }
{
    let count = list.len();
    let rates = array::from_fn(|l| if l < count { i64::from(list[l]) } else { 0 });
    NewMoney { rates }
}
