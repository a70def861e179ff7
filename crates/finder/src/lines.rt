// What rules an allocation out, pattern by pattern.

ghost use Rattle.std.specs.Prelude.{◌≡◌, [], MatchResult};
ghost use Rattle.reckoning.specs.Arrays.{rates_of};
ghost use Rattle.patterns.specs.Arrays.{shared_in};
ghost use Rattle.finder.specs.Lines.{LineWithin, line_from, over_all, line_of, height_over};

use crate::splits::Split;
use patterns::Common;
use reckoning::NewMoney;
use refusal::Refusal;

// The line of a pattern: K_1 to K_4, which are 0 past the last instrument, and 1,000,000 (Q + 2 B).
#[derive(Clone, Copy)]
pub struct Line {
    pub coefficients: [i64; 4],
    pub constant: i64,
    ghost within: { LineWithin coefficients constant },
}

impl Line {
    // Below it lies every allocation.
    pub fn over_all() -> Line
        ensures { line_from result.coefficients result.constant ≡ over_all }
    {
        Line {
            coefficients: [0; 4],
            constant: -1,
        }
    }

    // The line of the rates i, where check 11 takes every instrument and Q.
    // kept: one is of all patterns and the other of one, and only what is made of both goes on
    fn reckoned(common: &Common, i: &NewMoney) -> Result<Line, Refusal>
        ensures { MatchResult result (λ line. line_from line.coefficients line.constant ≡ line_of (shared_in common.now []) (rates_of i.now.rates))
            (λ no. over_all ≡ line_of (shared_in common.now []) (rates_of i.now.rates)) }
    {
        let k = common.coefficients(i)?;
        let q = common.constant(i)?;
        Ok(Line {
            coefficients: [k[0], k[1], k[2], k[3]],
            constant: 1_000_000 * (q + 2 * common.bound(i)),
        })
    }

    // The line of the rates i; where check 11 does not take an instrument or Q, one that rules out everything.
    // kept: as above
    pub fn of(common: &Common, i: &NewMoney) -> Line
        ensures { line_from result.coefficients result.constant ≡ line_of (shared_in common.now []) (rates_of i.now.rates) }
    {
        match Line::reckoned(common, i) {
            Ok(line) => line,
            Err(_) => Line::over_all(),
        }
    }

    // How far the shares lie over it, in millionths of an amount.
    pub fn height(&self, split: Split) -> i64
        ensures { result ≡ height_over (line_from self.now.coefficients self.now.constant) split.shares }
    {
        let mut sum = 0;
        for (k, p) in self.coefficients.iter().zip(&split.shares) {
            sum += *k * i64::from(*p);
        }
        sum + self.constant
    }
}
