// A plan in four plain arrays, one for each width of number, and back. The parts of a plan stand in them one after the other, and so do
// the rows of a table, thirty values each.
#![tactic(auto)]

ghost use Rattle.std.specs.Prelude.{◌≡◌, ◌+◌, ◌*◌, ◌≤◌, ◌<◌, length};
ghost use Rattle.std.proofs.Math.Seq.{paste};
ghost use Rattle.plan.specs.Held.{flag, is_slope, row_start, row_step, row_until};
ghost use Rattle.arrays.specs.Arrays.{values_at, rates_in, all_counts, all_amounts, all_shares, all_rates, all_gammas, instruments_of, byte_of, pattern_of, patterns_of, plan_of_arrays};

use plan::{Instrument, Pattern, Plan};
use reckoning::Row;
use std::array::from_fn;

// Where the outflows begin among the amounts, the money already invested, and the cost that is left at the horizon.
const OUTFLOWS: usize = 480;

const OPENING: usize = 510;

const COST: usize = 540;

// Where the allocation begins among the shares.
const ALLOCATION: usize = 30;

// Where it stands among the counts whether money already invested is held; where it begins which patterns are slopes, and where T of each;
// and where it stands whether such a cost is held.
const OPENED: usize = 4;

const SLOPED: usize = 5;

const UNTIL: usize = 69;

const COSTED: usize = 133;

// Where the starts and the steps of slopes begin among the rates.
const START: usize = 1_920;

const STEP: usize = 1_984;

// ---- a plan into arrays

// Puts the thirty values of row j down, from place 30 j on; the other places stay. In line, since its own code would call memmove, which
// the library for C does without.
#[inline(always)]
fn put_row<T: Copy>(out: &mut [T], j: usize, row: &[T; 30])
    requires { 30 * j + 30 ≤ length out.old }
    ensures is { out.new ≡ paste out.old (30 * j) row.now 30 }
    ensures thirty { length row.now ≡ 30 }
{
    out[30 * j..30 * j + 30].copy_from_slice(row);
}

// 1 for a slope, else 0.
fn slope_flag(row: &Pattern) -> usize
    ensures { result ≡ flag (is_slope row.now) }
{
    match row {
        Pattern::Slope { .. } => 1,
        Pattern::Rates(_) => 0,
    }
}

// The start, the step and T of a slope; of any other pattern, zeros.
fn slope_in(row: &Pattern) -> (i32, i32, u8)
    ensures start { result.0 ≡ row_start row.now }
    ensures step { result.1 ≡ row_step row.now }
    ensures until { result.2 ≡ row_until row.now }
{
    match row {
        Pattern::Slope { start, step, until } => (*start, *step, *until),
        Pattern::Rates(_) => (0, 0, 0),
    }
}

// N, n, q and m, and 1 where money already invested is held, else 0; then which patterns are slopes, then T of each, and 1 where the cost that
// is left at the horizon is held, else 0.
pub fn put_counts(plan: &Plan, out: &mut [usize; 134])
    ensures { out.new ≡ all_counts plan.now }
{
    let opened = usize::from(plan.opening.is_some());
    out[..SLOPED].copy_from_slice(&[
        plan.years,
        plan.instruments,
        plan.terms,
        plan.patterns,
        opened,
    ]);
    out[SLOPED..UNTIL].copy_from_slice(&from_fn::<_, 64, _>(|t| slope_flag(&plan.pattern[t])));
    out[UNTIL..COSTED].copy_from_slice(&from_fn::<_, 64, _>(|t| usize::from(
        slope_in(&plan.pattern[t]).2,
    )));
    out[COSTED] = usize::from(plan.cost.is_some());
}

// The payments of the 16 instruments, then the outflows, then the money already invested, then the cost that is left at the horizon.
pub fn put_amounts(plan: &Plan, out: &mut [i64; 556])
    ensures { out.new ≡ all_amounts plan.now }
{
    for (j, row) in plan.instrument.iter().enumerate() {
        put_row(out, j, &row.payments);
    }
    out[OUTFLOWS..OPENING].copy_from_slice(&plan.outflows);
    out[OPENING..COST].copy_from_slice(&plan.opening.unwrap_or([0; 30]));
    out[COST..].copy_from_slice(&plan.cost.unwrap_or([0; 16]));
}

// The rollover, then the allocation.
pub fn put_shares(plan: &Plan, out: &mut [u32; 46])
    ensures { out.new ≡ all_shares plan.now }
{
    out[..ALLOCATION].copy_from_slice(&plan.rollover);
    out[ALLOCATION..].copy_from_slice(&plan.allocation);
}

// The rates that a pattern lists; zeros of a slope.
fn rates_in(row: &Pattern) -> [i32; 30]
    ensures { result ≡ rates_in row.now }
{
    match row {
        Pattern::Rates(rates) => *rates,
        Pattern::Slope { .. } => [0; 30],
    }
}

// The rates of the 64 patterns, then the start of each, then the step of each.
pub fn put_rates(plan: &Plan, out: &mut [i32; 2048])
    ensures { out.new ≡ all_rates plan.now }
{
    for (t, row) in plan.pattern.iter().enumerate() {
        put_row(out, t, &rates_in(row));
    }
    out[START..STEP].copy_from_slice(&from_fn::<_, 64, _>(|t| slope_in(&plan.pattern[t]).0));
    out[STEP..].copy_from_slice(&from_fn::<_, 64, _>(|t| slope_in(&plan.pattern[t]).1));
}

// The 30 rows of a table of gammas.
pub fn put_gammas(rows: &[Row; 30], out: &mut [i64; 900])
    ensures { out.new ≡ all_gammas rows.now }
{
    for (j, row) in rows.iter().enumerate() {
        put_row(out, j, &row.values);
    }
}

// ---- arrays into a plan

// The four arrays that a plan stands in.
#[derive(Clone, Copy)]
pub struct PlanArrays<'a> {
    pub counts: &'a [usize; 134],
    pub amounts: &'a [i64; 556],
    pub shares: &'a [u32; 46],
    pub rates: &'a [i32; 2048],
}

// N values from place `at` on.
// kept: taken of the rest of an array, as `part_of(&amounts[30 * j..])`, the call is no plainer
fn part_of<T: Copy, const N: usize>(values: &[T], at: usize) -> [T; N]
    requires { at + N ≤ length values.now }
    ensures { result ≡ values_at values.now at N }
{
    *values[at..].first_chunk().unwrap()
}

// A byte; 0 where the number is none.
fn byte_of(n: usize) -> u8
    ensures { result ≡ byte_of n }
{
    u8::try_from(n).unwrap_or(0)
}

impl PlanArrays<'_> {
    // The instruments: thirty payments each, one instrument after the other.
    fn instruments(&self) -> [Instrument; 16]
        ensures { result ≡ instruments_of self.now.amounts.now }
    {
        from_fn(|j| Instrument {
            payments: part_of(self.amounts, 30 * j),
        })
    }

    // The pattern at t: thirty rates, or a slope where its count is not 0.
    fn pattern(&self, t: usize) -> Pattern
        requires { t < 64 }
        ensures { result ≡ pattern_of self.now.counts.now self.now.rates.now t }
    {
        let PlanArrays { counts, rates, .. } = *self;
        if counts[SLOPED + t] == 0 {
            return Pattern::Rates(part_of(rates, 30 * t));
        }
        Pattern::Slope {
            start: rates[START + t],
            step: rates[STEP + t],
            until: byte_of(counts[UNTIL + t]),
        }
    }

    // Fills in the patterns, one after the other. (Answered as a value they would stand on the stack more than once.)
    fn put_patterns(&self, rows: &mut [Pattern; 64])
        ensures { rows.new ≡ patterns_of self.now.counts.now self.now.rates.now }
    {
        for (t, row) in rows.iter_mut().enumerate() {
            *row = self.pattern(t);
        }
    }

    // The plan that the arrays hold, whatever they hold. Any number but 0 says that money already invested is held, or the cost that is
    // left at the horizon, or that a pattern is a slope.
    pub fn plan(&self) -> Plan
        ensures { result ≡ plan_of_arrays self.now.counts.now self.now.amounts.now self.now.shares.now self.now.rates.now }
    {
        let PlanArrays {
            counts,
            amounts,
            shares,
            ..
        } = *self;
        let mut plan = Plan {
            years: counts[0],
            instruments: counts[1],
            terms: counts[2],
            patterns: counts[3],
            instrument: self.instruments(),
            outflows: part_of(amounts, OUTFLOWS),
            rollover: part_of(shares, 0),
            pattern: [Pattern::Rates([0; 30]); 64],
            allocation: part_of(shares, ALLOCATION),
            opening: (0 < counts[OPENED]).then_some(part_of(amounts, OPENING)),
            cost: (0 < counts[COSTED]).then_some(part_of(amounts, COST)),
        };
        self.put_patterns(&mut plan.pattern);
        plan
    }
}
