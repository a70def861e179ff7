// Shares of signed amounts. This is the one place of the project that divides an amount.
#![tactic(auto)]

ghost use Rattle.std.specs.Prelude.{◌≡◌};
ghost use Rattle.whole.specs.Range.{million, limit, Within};
ghost use Rattle.whole.specs.Floor.{floor, share_of};

// The greatest whole number not above z / 1,000,000: the quotient toward zero, less one where the remainder is negative, that is where
// the quotient's product lies above z.
// kept: a type for the range of one number would be made for the call and taken apart in it
pub fn down(z: i64) -> i64
    requires { Within 1_000_000_000_000_000_000 z }
    ensures { result ≡ floor z million }
{
    let q = z / 1_000_000;
    if q * 1_000_000 > z { q - 1 } else { q }
}

// share(x, f) of document 01: the part of the amount x that f millionths are, downward.
// kept: as in `down`
pub fn share(x: i64, f: i64) -> i64
    requires within { Within limit x }
    requires within_2 { Within million f }
    ensures { result ≡ share_of x f }
{
    down(x * f)
}
