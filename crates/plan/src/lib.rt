// The plan held as values, what it means in arrays, and the checks that refuse it.
#![tactic(auto)]

mod accepted;
mod headed;

ghost use Rattle.std.specs.Prelude.{◌≡◌, true, ◌+◌, ◌-◌, ◌≤◌, ◌<◌, length, get_or, pos, IfOk};
ghost use Rattle.refusal.specs.Number.{refusal_in};
ghost use Rattle.whole.specs.Test.{pick, all, is_from, is_between};
ghost use Rattle.plan.specs.Held.{no_plan, shape_of, instrument_held, is_slope, row_rates, row_start, row_step, row_until, pattern_held, amounts_in, SlopeTyped, Typed};
ghost use Rattle.plan.specs.Numbers.{payments_meant, slope, rates_meant, numbers};
ghost use Rattle.plan.specs.Refusal.{check, most, shape_ok, head_refusal, refusal_of};

pub use accepted::AcceptedPlan;
pub use headed::HeadedPlan;
use refusal::Refusal;

// N, n, q and m, and which kinds are held that may be absent: what decides which records a plan file has.
#[derive(Clone, Copy)]
pub struct Shape {
    pub years: usize,
    pub instruments: usize,
    pub terms: usize,
    pub patterns: usize,
    // kept: an Option would be no plainer, since no value lies beside it: a file has the record or has not
    pub opened: bool,
    // kept: as `opened`
    pub costed: bool,
}

// The payments of one instrument per 1,000,000,000 put in, year after year.
#[derive(Clone, Copy)]
pub struct Instrument {
    pub payments: [i64; 30],
}

// A new-money pattern: its rates i_2, i_3 and on; or a slope, by its start, its step and T, the year from which on it is level.
// kept: an Option or a Result would be no plainer, since neither kind is an absence or a failure
#[derive(Clone, Copy)]
pub enum Pattern {
    Rates([i32; 30]),
    Slope { start: i32, step: i32, until: u8 },
}

// N, n, q and m, and the numbers that they count; what an array holds past them plays no part. `opening` is the money already invested,
// and `cost` is what is left of each instrument at the horizon, at cost per 1,000,000,000 put in, each where the plan holds it.
#[derive(Clone, Copy)]
pub struct Plan {
    pub years: usize,
    pub instruments: usize,
    pub terms: usize,
    pub patterns: usize,
    pub instrument: [Instrument; 16],
    pub outflows: [i64; 30],
    pub rollover: [u32; 30],
    pub pattern: [Pattern; 64],
    pub allocation: [u32; 16],
    pub opening: Option<[i64; 30]>,
    pub cost: Option<[i64; 16]>,
}

// ---- what is meant

impl Instrument {
    // What an instrument pays in each of the first `years` years, and zeros past them.
    pub fn payments(&self, years: usize) -> [i64; 30]
        ensures { result ≡ payments_meant years (instrument_held years self.now) }
    {
        std::array::from_fn(|k| if k < years { self.payments[k] } else { 0 })
    }
}

// The rate of a slope in a year: from its start on, a step for every year after the first, up to year `until`.
fn slope(start: i32, step: i32, until: u8, year: usize) -> i64
    requires { year ≤ 31 }
    ensures { result ≡ slope start step until year }
{
    // kept: a cast, since no `From` makes an i64 of a usize, and `try_from` would ask what to do where there is none
    let steps = year.min(usize::from(until)) as i64 - 1;
    i64::from(start) + steps * i64::from(step)
}

impl Pattern {
    // The rate that a pattern means in year 2 + l: listed, or of its slope.
    fn rate(&self, l: usize) -> i64
        requires { l < 30 }
        ensures { result ≡ pick (is_slope self.now) (slope (row_start self.now) (row_step self.now) (row_until self.now) (2 + l)) (get_or (row_rates self.now) l (pos 0)) }
    {
        match self {
            Pattern::Rates(rates) => i64::from(rates[l]),
            Pattern::Slope { start, step, until } => slope(*start, *step, *until, 2 + l),
        }
    }

    // The rates that a pattern means in years 2 to `years`, one fewer than there are years, and zeros past them.
    pub fn rates(&self, years: usize) -> [i64; 30]
        ensures { result ≡ rates_meant years (pattern_held years self.now) }
    {
        std::array::from_fn(|l| if l + 1 < years { self.rate(l) } else { 0 })
    }

    // Check 13 of one pattern.
    fn until_ok(&self) -> bool
        ensures is { result ≡ is_from 1 30 (pick (is_slope self.now) (row_until self.now) 1) }
        ensures typed { SlopeTyped self.now }
    {
        match self {
            Pattern::Rates(_) => true,
            Pattern::Slope { start, step, until } => {
                // what is read is known to have 32 bits
                let _typed = (*start, *step);
                (1..=30).contains(until)
            }
        }
    }
}

// Amount k of a kind, and 0 where the kind is not held.
pub fn amount_at<const N: usize>(kind: &Option<[i64; N]>, k: usize) -> i64
    requires { k < N }
    ensures { result ≡ get_or (amounts_in kind.now) k (pos 0) }
{
    match kind {
        Some(amounts) => amounts[k],
        None => 0,
    }
}

impl Plan {
    // The plan that holds nothing.
    pub fn empty() -> Plan
        ensures { result ≡ no_plan }
    {
        Plan {
            years: 0,
            instruments: 0,
            terms: 0,
            patterns: 0,
            instrument: [Instrument { payments: [0; 30] }; 16],
            outflows: [0; 30],
            rollover: [0; 30],
            pattern: [Pattern::Rates([0; 30]); 64],
            allocation: [0; 16],
            opening: None,
            cost: None,
        }
    }

    // The shape of a plan.
    pub fn shape(&self) -> Shape
        ensures { result ≡ shape_of self.now }
    {
        Shape {
            years: self.years,
            instruments: self.instruments,
            terms: self.terms,
            patterns: self.patterns,
            opened: self.opening.is_some(),
            costed: self.cost.is_some(),
        }
    }
}

// ---- the checks, one by one

impl Shape {
    // Check 3.
    pub fn check(self) -> Result<(), Refusal>
        ensures { refusal_in result ≡ check (shape_ok self) 3 0 }
    {
        let years = (1..=30).contains(&self.years);
        let instruments = (1..=16).contains(&self.instruments);
        let terms = (1..=30).contains(&self.terms);
        let patterns = (1..=64).contains(&self.patterns);
        if years && instruments && terms && patterns {
            Ok(())
        } else {
            Err(Refusal::Head)
        }
    }
}

// An amount is at least `low` and at most `high`.
fn is_between(amount: i64, low: i64, high: i64) -> bool
    ensures { result ≡ is_between low high amount }
{
    (low..=high).contains(&amount)
}

// Each of some amounts is at least `low` and at most `high`.
pub fn all_between(amounts: &[i64], low: i64, high: i64) -> bool
    ensures { result ≡ all (length amounts.now) (λ k. is_between low high (get_or amounts.now k (pos 0))) }
{
    amounts.iter().all(|amount| is_between(*amount, low, high))
}

impl Plan {
    // The head alone: check 3.
    pub fn headed(&self) -> Result<HeadedPlan<'_>, Refusal>
        ensures is { refusal_in result ≡ head_refusal (numbers self.now) }
        ensures plan { IfOk result (λ headed. headed.plan.now ≡ self.now) }
    {
        self.shape().check()?;
        Ok(HeadedPlan { plan: self })
    }

    // All of the plan: the first of the checks 3 and 6 to 9, with 13 right before 8, that it fails.
    pub fn accepted(&self) -> Result<AcceptedPlan<'_>, Refusal>
        ensures is { refusal_in result ≡ refusal_of (numbers self.now) }
        ensures typed { IfOk result (λ accepted. Typed self.now) }
        ensures plan { IfOk result (λ accepted. accepted.plan.now ≡ self.now) }
    {
        self.headed()?.accepted(Ok(()))
    }
}
