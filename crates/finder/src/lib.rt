// The search for an allocation whose verdict is solvent, instrument by instrument over the parts still to be placed.
#![tactic(auto)]

ghost use Rattle.std.specs.Prelude.{◌≡◌, true, ◌≤◌, length, Ok};
ghost use Rattle.plan.specs.Held.{held};
ghost use Rattle.plan.specs.Numbers.{numbers};
ghost use Rattle.finder.specs.Grid.{allocations};
ghost use Rattle.finder.specs.Find.{solvent_with, first_that, is_among, parts_taken, find_answer};
ghost use Rattle.finder.specs.Claims.{FindTrue};
ghost use Rattle.finder.specs.Alike.{FindAlike};
ghost use Rattle.finder.specs.Shown.{find_shown};
ghost use Rattle.finder.specs.Search.{RatesOf, LinesOf};

mod lines;
mod looks;
mod searching;
mod splits;

use lines::Line;
use patterns::Common;
use plan::{AcceptedPlan, Plan};
use reckoning::NewMoney;
use refusal::Refusal;
use searching::Search;
use splits::Split;

// Check 15 takes the number of parts.
fn is_taken(parts: u32) -> bool
    ensures { result ≡ is_among parts_taken parts }
{
    [1, 2, 4, 5, 8, 10, 16, 20, 25, 40].contains(&parts)
}

// Fills in the rates of every pattern. (Answered as a value they would stand on the stack twice.)
fn put_rates(plan: AcceptedPlan<'_>, rates: &mut [NewMoney])
    requires { length rates.old ≡ plan.plan.now.patterns }
    ensures { RatesOf (numbers plan.entry.plan.now) rates.new }
{
    for (t, i) in rates.iter_mut().enumerate() {
        *i = patterns::new_money(plan, t);
    }
}

// Fills in the line of every pattern, by its rates.
fn put_lines(common: &Common, rates: &[NewMoney], lines: &mut [Line])
    requires { length lines.old ≡ length rates.now }
    ensures { LinesOf common.now rates.now lines.new }
{
    for (t, line) in lines.iter_mut().enumerate() {
        *line = Line::of(common, &rates[t]);
    }
}

// The search in so many parts, for a plan of at most four instruments.
#[inline(never)]
fn search(plan: AcceptedPlan<'_>, parts: u32) -> Option<[u32; 16]>
    requires instruments_bound { plan.plan.now.instruments ≤ 4 }
    requires parts_value { is_among parts_taken parts ≡ true }
    ensures { find_shown (Ok result) ≡ first_that (solvent_with (numbers plan.entry.plan.now)) (allocations plan.entry.plan.now.instruments parts) }
{
    let common = Common::of(plan);
    let m = plan.plan.patterns;
    let mut rates = [NewMoney { rates: [0; 30] }; 64];
    let rates = &mut rates[..m];
    put_rates(plan, rates);
    let mut lines = [Line::over_all(); 64];
    let lines = &mut lines[..m];
    put_lines(&common, rates, lines);
    let search = Search {
        common: &common,
        rates,
        lines,
        unit: 1_000_000 / parts,
    };
    let found = search.from(Split::none(), 0, plan.plan.instruments - 1, parts)?;
    Some(found.widened())
}

// The answer for a plan that was already checked: the project's own leaf and no entry; a file's reader has made the checks.
pub fn find_accepted(plan: AcceptedPlan<'_>, parts: usize) -> Result<Option<[u32; 16]>, Refusal>
    ensures { find_shown result ≡ find_answer (numbers plan.entry.plan.now) parts }
{
    match u32::try_from(parts) {
        Ok(parts) if is_taken(parts) && plan.plan.instruments <= 4 => Ok(search(plan, parts)),
        _ => Err(Refusal::Parts),
    }
}

// The first allocation in so many parts, the larger share of instrument 1 first, whose verdict is solvent; none where there is none. Refused
// by check 3, 6 to 9, 13 or 15.
pub fn find(plan: &Plan, parts: usize) -> Result<Option<[u32; 16]>, Refusal>
    ensures is { find_shown result ≡ find_answer (numbers plan.now) parts }
    ensures says { FindTrue (numbers plan.now) parts (find_shown result) }
    ensures never { (find_shown result).refusal ≡ 11 → ⊥ }
    ensures alike { FindAlike (held plan.now) parts }
{
    find_accepted(plan.accepted()?, parts)
}
