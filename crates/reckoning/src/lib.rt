// One flow in one pattern, on arrays of thirty. Place 0 of an array of shares is r_1, of rates i_2, of a flow year 1,
// of weights w(0), of cells alpha_2.
#![tactic(auto)]

ghost use Rattle.std.specs.Prelude.{◌≡◌, ◌+◌, ◌-◌, get_or, pos, ◌+ℤ◌};
ghost use Rattle.whole.specs.Range.{million, limit, Between, Within};
ghost use Rattle.whole.specs.Floor.{share_of};
ghost use Rattle.whole.specs.Sum.{sum};
ghost use Rattle.whole.specs.Test.{pick, all, is_within};
ghost use Rattle.whole.specs.Table.{table};
ghost use Rattle.refusal.specs.declared.Refusal.TheVariants.{OutOfLimit};
ghost use Rattle.reckoning.specs.Reckoning.{sent as sentOf, alpha};
ghost use Rattle.reckoning.specs.Bound.{h as largestOf, B};
ghost use Rattle.reckoning.specs.Answers.{fund_shown, gammas_shown};
ghost use Rattle.reckoning.specs.Arrays.{shares_of, rates_of, amounts_of, Years, Terms, Rates, Amounts, weights_of, Before, Invested, fund_reckoned, Joins, RowsBefore, gamma_row, gamma_row_fits, gammas_reckoned};

use refusal::Refusal;

// The years of a plan: 1 to 30.
#[derive(Clone, Copy)]
pub struct Horizon {
    pub years: usize,
    ghost held: { Years years },
}

impl Horizon {
    pub fn of(years: usize) -> Horizon
        requires { Years years }
        ensures { result.years ≡ years }
    {
        Horizon { years }
    }
}

// A flow: what comes in or goes out in each year.
#[derive(Clone, Copy)]
pub struct Flow {
    pub amounts: [i64; 30],
    ghost within: { Amounts amounts },
}

// A pattern's rates of new money.
#[derive(Clone, Copy)]
pub struct NewMoney {
    pub rates: [i64; 30],
    ghost within: { Rates rates },
}

// A rollover over a plan's years: of what is invested, the share that matures after each year, and the weight that is still invested.
#[derive(Clone, Copy)]
pub struct Rollover {
    pub horizon: Horizon,
    pub terms: usize,
    pub shares: [i64; 30],
    pub weights: [i64; 30],
    ghost parts: { Terms terms shares },
    ghost weighed: { weights ≡ weights_of (shares_of shares) },
}

// A row of the table of gammas.
#[derive(Clone, Copy)]
pub struct Row {
    pub values: [i64; 30],
}

// Check 11 takes z: its limit, 10^12 on either side, is taken, and one more is not.
pub fn limited(z: i64) -> Result<i64, Refusal>
    ensures { result ≡ pick (is_within limit z) (Ok z) (Err OutOfLimit) }
{
    if z < -1_000_000_000_000 || z > 1_000_000_000_000 {
        Err(Refusal::OutOfLimit)
    } else {
        Ok(z)
    }
}

// What a cell of x sends into a later one: the share r that matures, and interest at the rate i on the share w that was invested;
// nothing where r and w are 0, as they are past the last term.
// kept: the four are read from arrays whose types say their ranges; a type for each would be made and taken apart in the innermost loop
fn sent(x: i64, r: i64, w: i64, i: i64) -> i64
    requires within { Within limit x }
    requires within_2 { Within million r }
    requires within_3 { Within million w }
    requires within_4 { Within million i }
    ensures { result ≡ sentOf x r w i }
{
    // the two that wait for each other come first, which is faster (docs/DECISIONS.md, "The reckoning")
    let invested = whole::share(x, w);
    let interest = whole::share(invested, i);
    let matured = whole::share(x, r);
    matured + interest
}

// w(0) to w(29): 1,000,000 first, then what is left of it after each of the shares, and 0 after the last.
fn weights(shares: &[i64; 30]) -> [i64; 30]
    requires { (terms : _) × Terms terms shares.now }
    ensures { result ≡ weights_of (shares_of shares.now) }
{
    let mut weights = [0; 30];
    let mut left: i64 = 1_000_000;
    for (d, share) in shares.iter().enumerate() {
        weights[d] = left;
        left -= share;
    }
    weights
}

impl NewMoney {
    // h: the largest of the rates i_2 to i_n, without their signs; 0 where n is 1.
    pub fn largest(&self, horizon: Horizon) -> i64
        ensures { result ≡ pos (largestOf (rates_of self.now.rates) horizon.years) }
    {
        let rates = &self.rates[..horizon.years - 1];
        let mut most: i64 = 0;
        for rate in rates {
            most = most.max(rate.abs());
        }
        most
    }

    // B of a pattern's rates over n years; 2 where n is 1, whatever the rates.
    pub fn bound(&self, horizon: Horizon) -> i64
        ensures value { result ≡ pos (B (largestOf (rates_of self.now.rates) horizon.years) horizon.years) }
        ensures between { Between (pos 0) (pos 4_294_967_295) result }
    {
        let h = self.largest(horizon);
        let mut g: i64 = 1;
        // kept: k is a number of the formula, and no place in an array
        for k in 3..horizon.years + 2 {
            // kept: no From takes a usize to an i64, and a TryFrom that never fails is no plainer
            g += whole::down(g * h + 999_999) + (3 * k - 5) as i64;
        }
        // kept: as above
        g + horizon.years as i64
    }
}

impl Rollover {
    // The rollover of q shares, with its weights.
    pub fn of(horizon: Horizon, terms: usize, shares: [i64; 30]) -> Rollover
        requires { Terms terms shares }
        ensures same_horizon { result.horizon ≡ horizon }
        ensures same_terms { result.terms ≡ terms }
        ensures same_shares { result.shares ≡ shares }
    {
        Rollover {
            horizon,
            terms,
            shares,
            weights: weights(&shares),
        }
    }

    // The first of the j cells before a cell that can send it anything, as older ones are past the terms; 0 where all j can.
    fn first(&self, j: usize) -> usize
        ensures { result ≡ j - self.now.terms }
    {
        j.saturating_sub(self.terms)
    }

    // ---- the cells and the fund

    // Cell j, which counts from 0, from its flow and the j cells before it; the first is its flow alone.
    // kept: a flow is reckoned in many patterns and a pattern with many flows, so no value would hold the two
    fn cell(&self, flow: &Flow, i: &NewMoney, v: &[i64; 30], j: usize) -> i64
        requires { Before (shares_of self.now.shares) (rates_of i.now.rates) (amounts_of flow.now.amounts) j v.now }
        ensures { result ≡ alpha (shares_of self.now.shares) (rates_of i.now.rates) (amounts_of flow.now.amounts) (2 + j) }
    {
        let mut s = flow.amounts[j];
        // kept: zipped, two of the four arrays would be read forwards and two reversed, which is no plainer
        for l in self.first(j)..j {
            let d = j - l - 1;
            s += sent(v[l], self.shares[d], self.weights[d], i.rates[l]);
        }
        s
    }

    // What the cells still have invested at the horizon.
    fn total(&self, v: &[i64; 30]) -> i64
        requires { Invested self.now.terms self.now.horizon.years v.now self.now.weights }
        ensures { result ≡ sum self.now.horizon.years (λ k. share_of (get_or v.now k (pos 0)) (get_or self.now.weights (self.now.horizon.years - k - 1) (pos 0))) }
    {
        let n = self.horizon.years;
        let from = self.first(n);
        let cells = &v[from..n];
        let weights = &self.weights[..n - from];
        let mut s: i64 = 0;
        for (x, w) in cells.iter().zip(weights.iter().rev()) {
            s += whole::share(*x, *w);
        }
        s
    }

    // The fund of a flow, with the amount that is left at the horizon, unless check 11 refuses it or a cell.
    // kept: as in `cell`; what is left is one number, whose range no other call here asks
    pub fn fund(&self, flow: &Flow, i: &NewMoney, left: i64) -> Result<i64, Refusal>
        requires { Within limit left }
        ensures value { fund_shown result ≡ fund_reckoned (shares_of self.now.shares) (rates_of i.now.rates) (amounts_of flow.now.amounts) self.now.horizon.years left }
        ensures within { Within limit (fund_shown result).fund }
    {
        let mut v = [0; 30];
        // kept: a cell is made of the array as it stands, so no iterator can lend its places
        for j in 0..self.horizon.years {
            v[j] = limited(self.cell(flow, i, &v, j))?;
        }
        let s = self.total(&v) + left;
        limited(s)
    }

    // ---- the gammas

    // Row j, which counts from 0, from the j rows before it: 1,000,000,000 at its own place j, and zeros past it.
    fn next_row(&self, i: &NewMoney, rows: &[Row; 30], j: usize) -> Row
        requires { RowsBefore (shares_of self.now.shares) (rates_of i.now.rates) self.now.horizon.years j rows.now }
        ensures { result ≡ gamma_row (shares_of self.now.shares) (rates_of i.now.rates) self.now.horizon.years j }
    {
        let mut values = [0; 30];
        values[j] = 1_000_000_000;
        // kept: as in `cell`
        for c in self.first(j)..j {
            let d = j - c - 1;
            values = joined(
                &values,
                &rows[c].values,
                self.shares[d],
                self.weights[d],
                i.rates[c],
                self.horizon,
            );
        }
        Row { values }
    }

    // The table of gammas over the plan's years, with zeros past them, unless check 11 refuses one of its cells.
    pub fn gammas(&self, i: &NewMoney) -> Result<[Row; 30], Refusal>
        ensures { gammas_shown result ≡ gammas_reckoned (shares_of self.now.shares) (rates_of i.now.rates) self.now.horizon.years }
    {
        let mut rows = [Row { values: [0; 30] }; 30];
        // kept: as in `fund`
        for j in 0..self.horizon.years {
            rows[j] = self.next_row(i, &rows, j).limited(self.horizon)?;
        }
        Ok(rows)
    }
}

// A row of n entries with what an earlier row sends into each, and zeros past them.
fn joined(
    row: &[i64; 30],
    earlier: &[i64; 30],
    r: i64,
    w: i64,
    i: i64,
    horizon: Horizon,
) -> [i64; 30]
    requires { Joins horizon.years row.now earlier.now r w i }
    ensures { result ≡ table 30 horizon.years (λ l. get_or row.now l (pos 0) +ℤ sentOf (get_or earlier.now l (pos 0)) r w i) (pos 0) }
{
    let mut v = [0; 30];
    for (l, x) in earlier[..horizon.years].iter().enumerate() {
        v[l] = row[l] + sent(*x, r, w, i);
    }
    v
}

impl Row {
    // The row, unless check 11 refuses one of its first n entries.
    fn limited(self, horizon: Horizon) -> Result<Row, Refusal>
        ensures { result ≡ pick (all horizon.years (λ l. is_within limit (get_or self.values l (pos 0)))) (Ok self) (Err OutOfLimit) }
    {
        let values = &self.values[..horizon.years];
        for z in values {
            limited(*z)?;
        }
        Ok(self)
    }
}
