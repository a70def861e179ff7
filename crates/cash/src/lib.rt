// The cash account with two rates: an operator lends what is left over and borrows what is missing. Place 0 of a list of rates is year 2,
// of a flow year 1.
#![tactic(auto)]

ghost use Rattle.std.specs.Prelude.{◌≡◌, pos};
ghost use Rattle.whole.specs.Range.{limit, Between, Within};
ghost use Rattle.refusal.specs.Number.{refusal_in};
ghost use Rattle.reckoning.specs.Arrays.{rates_of, amounts_of};
ghost use Rattle.plan.specs.Held.{held};
ghost use Rattle.plan.specs.Numbers.{numbers};
ghost use Rattle.cash.specs.Account.{rate_for, h as largestOf, g as gOf};
ghost use Rattle.cash.specs.Theorem.{NearEveryYear, CashTrue};
ghost use Rattle.cash.specs.Call.{cash_reckoned, cash_answer};
ghost use Rattle.cash.specs.Shown.{cash_shown};
ghost use Rattle.cash.specs.Alike.{CashAlike};
ghost use Rattle.cash.specs.Uncosted.{CashUncosted};
ghost use Rattle.cash.specs.Arrays.{account_reckoned};

mod lists;

use lists::TwoLists;
use plan::Plan;
use planner::Word;
use reckoning::{Flow, Horizon, NewMoney};
use refusal::Refusal;

// The account at the end of the last year, its bound and its word.
#[derive(Clone, Copy)]
pub struct CashAccount {
    pub account: i64,
    pub bound: i64,
    pub word: Word,
}

// The rates of years 2 to N, at which money is lent and borrowed.
#[derive(Clone, Copy)]
struct TwoRates {
    horizon: Horizon,
    lending: NewMoney,
    borrowing: NewMoney,
}

// The rate of a year that begins with z: lending where z is 0 or more, else borrowing.
fn rate_for(z: i64, lending: i64, borrowing: i64) -> i64
    ensures { result ≡ rate_for lending borrowing z }
{
    if z >= 0 { lending } else { borrowing }
}

impl TwoRates {
    // V of the last year, unless check 11 does not take some V.
    fn account(&self, flow: &Flow) -> Result<i64, Refusal>
        ensures { result ≡ account_reckoned (rates_of self.now.lending.rates) (rates_of self.now.borrowing.rates) (amounts_of flow.now.amounts) self.now.horizon.years }
    {
        let later = &flow.amounts[1..self.horizon.years];
        let mut v = flow.amounts[0];
        for ((amount, lending), borrowing) in later
            .iter()
            .zip(&self.lending.rates)
            .zip(&self.borrowing.rates)
        {
            let rate = rate_for(v, *lending, *borrowing);
            v = reckoning::limited(v + whole::share(v, rate) + *amount)?;
        }
        Ok(v)
    }

    // h: the largest of all rates of both lists; 0 where there is one year.
    fn largest(&self) -> i64
        ensures { result ≡ pos (largestOf (rates_of self.now.lending.rates) (rates_of self.now.borrowing.rates) self.now.horizon.years) }
    {
        let lending = self.lending.largest(self.horizon);
        let borrowing = self.borrowing.largest(self.horizon);
        lending.max(borrowing)
    }

    // g of the last year; 1 where there is one, whatever the rates.
    fn bound(&self) -> i64
        ensures value { result ≡ pos (gOf (largestOf (rates_of self.now.lending.rates) (rates_of self.now.borrowing.rates) self.now.horizon.years) self.now.horizon.years) }
        ensures between { Between (pos 0) (pos 4_294_967_296) result }
    {
        let h = self.largest();
        let mut g = 1;
        // kept: the same step once a year, of which no place is read
        for _ in 1..self.horizon.years {
            g += whole::down(g * h + 999_999) + 2;
        }
        g
    }

    // The account of a flow, its bound and its word; check 11 may refuse it.
    fn reckon(&self, flow: &Flow) -> Result<CashAccount, Refusal>
        ensures { cash_shown result ≡ cash_reckoned (rates_of self.now.lending.rates) (rates_of self.now.borrowing.rates) (amounts_of flow.now.amounts) self.now.horizon.years }
    {
        let account = self.account(flow)?;
        let bound = self.bound();
        Ok(CashAccount {
            account,
            bound,
            word: planner::word_of(account, bound, 0),
        })
    }
}

// The cash account of the plan's allocation at the end of year N, its bound and its word: what is left over is lent and what is missing is
// borrowed, at the rates of years 2 to N, of which each list has N - 1. What is left of the notes at the horizon is not counted. Refused by
// check 3, 5 to 9, 11, 13 or 14.
// kept: TwoLists is what the call makes of the two, each of which comes by itself, as in C
pub fn cash(plan: &Plan, lending: &[i32], borrowing: &[i32]) -> Result<CashAccount, Refusal>
    ensures is { cash_shown result ≡ cash_answer (numbers plan.now) lending.now borrowing.now }
    ensures near { CashTrue (numbers plan.now) lending.now borrowing.now (cash_shown result) }
    ensures theorem { NearEveryYear }
    ensures alike { CashAlike (held plan.now) lending.now borrowing.now }
    ensures uncosted { CashUncosted (numbers plan.now) lending.now borrowing.now }
{
    let headed = plan.headed()?;
    let lists = TwoLists::of(plan.years, lending, borrowing)?;
    let accepted = headed.accepted(lists.check())?;
    let rates = TwoRates {
        horizon: patterns::horizon_of(accepted),
        lending: lists::money_of(lending),
        borrowing: lists::money_of(borrowing),
    };
    rates.reckon(&patterns::allocation_flow(accepted))
}
