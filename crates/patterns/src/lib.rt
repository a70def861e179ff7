// A plan in one pattern: what no allocation changes, the allocation's flow, the fund, K and Q, the bound and the form.
#![tactic(auto)]

// kept, the fact Allocated: a type of a `Common` and an allocation would be made for the one call, and the flow alone goes on
mod allocation;
mod common;

ghost use Rattle.std.specs.Prelude.{◌≡◌, true, List, [], ℕ, ◌+◌, ◌≤◌, ◌<◌, length, get_or, is_some, pos, ◌*ℤ◌};
ghost use Rattle.whole.specs.Range.{limit, Between, Within};
ghost use Rattle.whole.specs.Sum.{sum};
ghost use Rattle.whole.specs.Table.{table};
ghost use Rattle.reckoning.specs.Bound.{h as largestOf, B};
ghost use Rattle.reckoning.specs.Arrays.{shares_of, rates_of, amounts_of, fund_reckoned};
ghost use Rattle.reckoning.specs.Answers.{fund_shown};
ghost use Rattle.plan.specs.Held.{flag, amounts_in};
ghost use Rattle.plan.specs.Numbers.{numbers};
ghost use Rattle.patterns.specs.Pattern.{shared_of, flow_of, bound_at, flow_reckoned, coefficients_reckoned, form_reckoned};
ghost use Rattle.patterns.specs.Shown.{coefficients_shown, form_shown};
ghost use Rattle.patterns.specs.Prepared.{Parts};
ghost use Rattle.patterns.specs.Arrays.{rollover_array, rates_array, constant_array, payments_rows, IsOf, parts_of, shared_in, left_with, left_in, flow_array, shared_with, Weighable, Allocated};

pub use allocation::Allocation;
pub use common::Common;
use plan::{AcceptedPlan, Plan};
use reckoning::{Flow, Horizon, NewMoney, Rollover};
use refusal::Refusal;

// The linear form of a pattern: K_1 to K_n, and zeros past them; Q; and its value at an allocation.
#[derive(Clone, Copy)]
pub struct Form {
    pub coefficients: [i64; 16],
    pub constant: i64,
    pub value: i64,
}

// ---- a plan's numbers, as the core takes them

// N.
pub fn horizon_of(plan: AcceptedPlan<'_>) -> Horizon
    ensures { result.years ≡ plan.entry.plan.now.years }
{
    Horizon::of(plan.plan.years)
}

// The rollover: r_1 to r_q, and zeros past them.
pub fn rollover_of(plan: AcceptedPlan<'_>) -> Rollover
    ensures years { result.horizon.years ≡ plan.entry.plan.now.years }
    ensures terms { result.terms ≡ plan.entry.plan.now.terms }
    ensures shares { result.shares ≡ rollover_array (numbers plan.entry.plan.now) }
    ensures held { shares_of result.shares ≡ (numbers plan.entry.plan.now).r }
{
    let horizon = horizon_of(plan);
    let plan = plan.plan;
    let shares = std::array::from_fn(|d| if d < plan.terms {
        i64::from(plan.rollover[d])
    } else {
        0
    });
    Rollover::of(horizon, plan.terms, shares)
}

// i_2 to i_N of pattern t, which counts from 0, and zeros past them; only zeros if N = 1.
pub fn new_money(plan: AcceptedPlan<'_>, t: usize) -> NewMoney
    requires { t < plan.plan.now.patterns }
    ensures is { result.rates ≡ rates_array (numbers plan.entry.plan.now) (1 + t) }
    ensures held { rates_of result.rates ≡ (numbers plan.entry.plan.now).i (1 + t) }
{
    let plan = plan.plan;
    NewMoney {
        rates: plan.pattern[t].rates(plan.years),
    }
}

// What instruments 1 to n pay in years 1 to N, and zeros past either.
fn payments_of(plan: AcceptedPlan<'_>) -> [[i64; 30]; 16]
    ensures { result ≡ payments_rows (numbers plan.entry.plan.now) }
{
    let plan = plan.plan;
    let mut rows = [[0; 30]; 16];
    // kept: what a closure that answers an array gives cannot be cited in a proof today
    for j in 0..plan.instruments {
        rows[j] = plan.instrument[j].payments(plan.years);
    }
    rows
}

// The flow of Q, which no allocation changes, in year 1 + k: b - o.
fn constant_in(plan: AcceptedPlan<'_>, k: usize) -> i64
    requires { k < plan.plan.now.years }
    ensures { result ≡ (shared_of (numbers plan.entry.plan.now)).constant_flow (1 + k) }
{
    plan::amount_at(&plan.plan.opening, k) - plan.plan.outflows[k]
}

// The same in years 1 to N, and zeros past them.
fn constant_of(plan: AcceptedPlan<'_>) -> Flow
    ensures { result.amounts ≡ constant_array (numbers plan.entry.plan.now) }
{
    Flow {
        amounts: std::array::from_fn(|k| if k < plan.plan.years {
            constant_in(plan, k)
        } else {
            0
        }),
    }
}

// The allocation's flow of a plan: the project's own leaf and no entry.
pub fn allocation_flow(plan: AcceptedPlan<'_>) -> Flow
    ensures is { result.amounts ≡ flow_array (shared_of (numbers plan.entry.plan.now)) }
    ensures held { amounts_of result.amounts ≡ flow_of (shared_of (numbers plan.entry.plan.now)) }
{
    Common::of(plan).flow(&Allocation::of(plan))
}

impl Allocation {
    // That of a plan: p_1 to p_n, and zeros past them.
    pub fn of(plan: AcceptedPlan<'_>) -> Allocation
        ensures is { result.shares ≡ table 16 plan.entry.plan.now.instruments (λ j. get_or plan.entry.plan.now.allocation j 0) 0 }
        ensures held { parts_of plan.entry.plan.now.instruments result.shares ≡ (numbers plan.entry.plan.now).p }
        ensures parts { Parts 16 result.shares }
    {
        let plan = plan.plan;
        Allocation {
            shares: std::array::from_fn(|j| if j < plan.instruments {
                plan.allocation[j]
            } else {
                0
            }),
        }
    }

    // The sum of some amounts, each times its part; 0 of none.
    fn weighed(&self, amounts: &[i64]) -> i64
        requires { Weighable (length amounts.now) amounts.now self.now.shares }
        ensures { result ≡ sum (length amounts.now) (λ j. get_or amounts.now j (pos 0) *ℤ pos (get_or self.now.shares j 0)) }
    {
        let mut sum = 0;
        for (x, p) in amounts.iter().zip(&self.shares) {
            sum += x * i64::from(*p);
        }
        sum
    }
}

// What is left of an allocation at the horizon, of n instruments and the cost of each, in whole amounts; 0 where no cost is held.
pub fn left_of(cost: &Option<[i64; 16]>, n: usize, p: &Allocation) -> i64
    requires { is_some cost.now ≡ true → Weighable n (amounts_in cost.now) p.now.shares }
    ensures value { result ≡ left_with cost.now n p.now.shares }
    ensures within { Within limit result }
{
    match cost {
        Some(costs) => whole::down(p.weighed(&costs[..n])),
        None => 0,
    }
}

// B of a pattern of the rates i: one more where the cost at the horizon is held.
// kept: whether it is held is all that a bound asks of a cost
pub fn bound_at(i: &NewMoney, horizon: Horizon, costed: bool) -> i64
    ensures value { result ≡ pos (B (largestOf (rates_of i.now.rates) horizon.years) horizon.years + flag costed) }
    ensures between { Between (pos 0) (pos 4_294_967_296) result }
{
    i.bound(horizon) + i64::from(costed)
}

impl Common {
    // That of a plan; it takes every allocation of at most a million parts together.
    pub fn of(plan: AcceptedPlan<'_>) -> Common
        ensures is { IsOf plan.entry.plan.now result }
        ensures shared { (shares : List ℕ) → shared_in result shares ≡ shared_with (numbers plan.entry.plan.now) (parts_of plan.entry.plan.now.instruments shares) }
        ensures allocated { (shares : List ℕ) → Parts result.instruments shares → Allocated result shares }
    {
        Common {
            rollover: rollover_of(plan),
            instruments: plan.plan.instruments,
            payments: payments_of(plan),
            constant: constant_of(plan),
            cost: plan.plan.cost,
        }
    }

    // ---- an allocation

    // What the instruments pay in year 1 + k, each times its part.
    fn paid(&self, p: &Allocation, k: usize) -> i64
        requires k_few { k < 30 }
        requires parts { Parts self.now.instruments p.now.shares }
        ensures { result ≡ sum self.now.instruments (λ j. get_or (get_or self.now.payments j []) k (pos 0) *ℤ pos (get_or p.now.shares j 0)) }
    {
        let mut sum = 0;
        for (row, part) in self.payments[..self.instruments].iter().zip(&p.shares) {
            sum += row[k] * i64::from(*part);
        }
        sum
    }

    // The allocation's flow in year 1 + k: what it pays, in whole amounts, and the flow of Q.
    fn flow_in(&self, p: &Allocation, k: usize) -> i64
        requires k_few { k < self.now.rollover.horizon.years }
        requires allocated { Allocated self.now p.now.shares }
        ensures { result ≡ flow_of (shared_in self.now p.now.shares) (1 + k) }
    {
        whole::down(self.paid(p, k)) + self.constant.amounts[k]
    }

    // The same in years 1 to N, and zeros past them.
    pub fn flow(&self, p: &Allocation) -> Flow
        requires { Allocated self.now p.now.shares }
        ensures is { result.amounts ≡ flow_array (shared_in self.now p.now.shares) }
        ensures held { amounts_of result.amounts ≡ flow_of (shared_in self.now p.now.shares) }
    {
        let years = self.rollover.horizon.years;
        Flow {
            amounts: std::array::from_fn(|k| if k < years { self.flow_in(p, k) } else { 0 }),
        }
    }

    // What is left of the allocation at the horizon, in whole amounts; 0 where no cost is held.
    pub fn left(&self, p: &Allocation) -> i64
        requires { Parts self.now.instruments p.now.shares }
        ensures value { result ≡ left_in self.now p.now.shares }
        ensures within { Within limit result }
    {
        left_of(&self.cost, self.instruments, p)
    }

    // ---- one pattern, at the rates i

    // The fund of a flow, with the amount that is left at the horizon; refused where check 11 does not take it or a cell.
    // kept: a type of a flow and what is left of it is no plainer: it would be built for this one call at each instrument and at Q
    pub fn fund(&self, flow: &Flow, left: i64, i: &NewMoney) -> Result<i64, Refusal>
        requires { Within limit left }
        ensures value { fund_shown result ≡ fund_reckoned (shares_of self.now.rollover.shares) (rates_of i.now.rates) (amounts_of flow.now.amounts) self.now.rollover.horizon.years left }
        ensures within { Within limit (fund_shown result).fund }
        ensures allocation { (shares : List ℕ) → amounts_of flow.now.amounts ≡ flow_of (shared_in self.now shares) → left ≡ left_in self.now shares
            → fund_shown result ≡ flow_reckoned (shared_in self.now shares) (rates_of i.now.rates) }
    {
        self.rollover.fund(flow, i, left)
    }

    // Q, the fund of the flow that no allocation changes, of which nothing is left; refused as that of any flow.
    pub fn constant(&self, i: &NewMoney) -> Result<i64, Refusal>
        ensures value { fund_shown result ≡ fund_reckoned (shares_of self.now.rollover.shares) (rates_of i.now.rates) (amounts_of self.now.constant.amounts) self.now.rollover.horizon.years (pos 0) }
        ensures within { Within limit (fund_shown result).fund }
    {
        self.fund(&self.constant, 0, i)
    }

    // K_1 to K_n, the funds of the instruments' payments with their costs, and zeros past them; refused where check 11 does not take one.
    pub fn coefficients(&self, i: &NewMoney) -> Result<[i64; 16], Refusal>
        ensures { (shares : List ℕ) → coefficients_shown result ≡ coefficients_reckoned (shared_in self.now shares) (rates_of i.now.rates) }
    {
        let mut k = [0; 16];
        for (j, row) in self.payments[..self.instruments].iter().enumerate() {
            let payments = Flow { amounts: *row };
            k[j] = self.fund(&payments, plan::amount_at(&self.cost, j), i)?;
        }
        Ok(k)
    }

    // The fund of the allocation, with what is left of it; refused where check 11 does not take it or a cell.
    pub fn allocation_fund(&self, p: &Allocation, i: &NewMoney) -> Result<i64, Refusal>
        requires { Allocated self.now p.now.shares }
        ensures { fund_shown result ≡ flow_reckoned (shared_in self.now p.now.shares) (rates_of i.now.rates) }
    {
        self.fund(&self.flow(p), self.left(p), i)
    }

    // B of the pattern: one more where the cost at the horizon is held.
    pub fn bound(&self, i: &NewMoney) -> i64
        ensures value { (shares : List ℕ) → result ≡ pos (bound_at (shared_in self.now shares) (rates_of i.now.rates)) }
        ensures between { Between (pos 0) (pos 4_294_967_296) result }
    {
        bound_at(i, self.rollover.horizon, self.cost.is_some())
    }

    // K_1 to K_n, Q and the value at the allocation; refused where check 11 does not take an instrument or Q.
    pub fn form(&self, p: &Allocation, i: &NewMoney) -> Result<Form, Refusal>
        requires { Parts self.now.instruments p.now.shares }
        ensures { form_shown result ≡ form_reckoned (shared_in self.now p.now.shares) (rates_of i.now.rates) }
    {
        let coefficients = self.coefficients(i)?;
        let constant = self.constant(i)?;
        let value = whole::down(p.weighed(&coefficients[..self.instruments])) + constant;
        Ok(Form {
            coefficients,
            constant,
            value,
        })
    }
}
