// What no allocation of a plan changes.

ghost use Rattle.patterns.specs.Prepared.{Prepared};

use reckoning::{Flow, Rollover};

// N and the rollover, the payments of n instruments, the flow of Q, and the cost that is left of each instrument at the horizon, where it is
// held. What stands past the last instrument plays no part.
#[derive(Clone, Copy)]
pub struct Common {
    pub rollover: Rollover,
    pub instruments: usize,
    pub payments: [[i64; 30]; 16],
    pub constant: Flow,
    pub cost: Option<[i64; 16]>,
    ghost prepared: { Prepared instruments payments cost },
}
