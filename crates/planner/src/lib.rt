// The calls open to callers. Each takes any plan and any pattern number, and its contract says the whole answer.
#![tactic(auto)]

mod rows;

ghost use Rattle.std.specs.Prelude.{◌≡◌, false, List, ℕ, IfOk, is_some};
ghost use Rattle.whole.specs.Range.{limit, Within};
ghost use Rattle.refusal.specs.Number.{refusal_in};
ghost use Rattle.reckoning.specs.Answers.{fund_shown, gammas_shown};
ghost use Rattle.reckoning.specs.Arrays.{rates_of, amounts_of};
ghost use Rattle.reckoning.specs.Level.{LevelEveryYear};
ghost use Rattle.plan.specs.Held.{PlainHeld, held};
ghost use Rattle.plan.specs.Numbers.{numbers};
ghost use Rattle.patterns.specs.Arrays.{shared_in, left_in};
ghost use Rattle.patterns.specs.Pattern.{flow_of};
ghost use Rattle.patterns.specs.Shown.{form_shown};
ghost use Rattle.planner.specs.Calls.{call_refusal, fund_answer, bound_answer, gammas_answer, form_answer};
ghost use Rattle.planner.specs.Verdict.{verdict_answer, judgement_of};
ghost use Rattle.planner.specs.Rows.{row_reckoned};
ghost use Rattle.planner.specs.Demand3.{FundNear, FormNear, VerdictTrue};
ghost use Rattle.planner.specs.Level.{LevelTrue};
ghost use Rattle.planner.specs.Plain.{PlainFlow, PlainHorizon, Plain};
ghost use Rattle.planner.specs.Alike.{Alike};
ghost use Rattle.planner.specs.Shown.{bound_shown, one_shown, verdict_shown, judgement_shown};

use patterns::{Allocation, Common, Form};
use plan::{AcceptedPlan, Plan};
use reckoning::{Flow, NewMoney, Row};
use refusal::Refusal;
use rows::words_in;
pub use rows::{Judged, PatternRow, Verdict, Word, word_of};

// ---- the calls

// What a call on one pattern starts from: the plan, which its own checks take, and the pattern's rates.
#[derive(Clone, Copy)]
struct Call<'a> {
    plan: AcceptedPlan<'a>,
    i: NewMoney,
}

impl Call<'_> {
    // On pattern t, which counts from 1; refused by the first of the plan's own checks, or of check 10, that the call fails: 10 for t = 0
    // and past the last pattern.
    // kept: a plan and a number are what a caller has, and a struct of both would be made for the one call
    fn on(plan: &Plan, t: usize) -> Result<Call<'_>, Refusal>
        ensures is { refusal_in result ≡ call_refusal (numbers plan.now) t }
        ensures plan_value { IfOk result (λ call. call.plan.plan.now ≡ plan.now) }
        ensures rates { IfOk result (λ call. rates_of call.i.rates ≡ (numbers plan.now).i t) }
    {
        let plan = plan.accepted()?;
        if !(1..=plan.plan.patterns).contains(&t) {
            return Err(Refusal::PatternNumber);
        }
        Ok(Call {
            plan,
            i: patterns::new_money(plan, t - 1),
        })
    }
}

// The fund of the plan's allocation in pattern t, which counts from 1; refused by checks 3, 6 to 11 or 13. At level rates another rollover
// moves it by less than the bound.
// kept: a plan and a number are what a caller has, and a struct of both would be made for the one call
#[inline(never)]
pub fn fund(plan: &Plan, t: usize) -> Result<i64, Refusal>
    ensures is { fund_shown result ≡ fund_answer (numbers plan.now) t }
    ensures near { FundNear (numbers plan.now) t (fund_shown result) }
    ensures level { LevelTrue plan.now t (fund_shown result) }
    ensures theorem { LevelEveryYear }
{
    let Call { plan, i } = Call::on(plan, t)?;
    Common::of(plan).allocation_fund(&Allocation::of(plan), &i)
}

// The bound B of pattern t, in amounts; refused by checks 3, 6 to 10 or 13.
// kept: a plan and a number are what a caller has, and a struct of both would be made for the one call
pub fn bound(plan: &Plan, t: usize) -> Result<i64, Refusal>
    ensures { bound_shown result ≡ bound_answer (numbers plan.now) t }
{
    let call = Call::on(plan, t)?;
    let horizon = patterns::horizon_of(call.plan);
    let costed = call.plan.plan.cost.is_some();
    Ok(patterns::bound_at(&call.i, horizon, costed))
}

// The linear form of pattern t: K_1 to K_n, Q, and its value at the plan's allocation; refused by checks 3, 6 to 11 or 13.
// kept: a plan and a number are what a caller has, and a struct of both would be made for the one call
pub fn form(plan: &Plan, t: usize) -> Result<Form, Refusal>
    ensures is { form_shown result ≡ form_answer (numbers plan.now) t }
    ensures near { FormNear (numbers plan.now) t (form_shown result) }
{
    let Call { plan, i: rates } = Call::on(plan, t)?;
    Common::of(plan).form(&Allocation::of(plan), &rates)
}

// The table of gammas of pattern t; refused by checks 3, 6 to 11 or 13.
// kept: a plan and a number are what a caller has, and a struct of both would be made for the one call
#[inline(never)]
pub fn gammas(plan: &Plan, t: usize) -> Result<[Row; 30], Refusal>
    ensures { gammas_shown result ≡ gammas_answer (numbers plan.now) t }
{
    let Call { plan, i: new_money } = Call::on(plan, t)?;
    patterns::rollover_of(plan).gammas(&new_money)
}

// ---- the verdict

// What a pattern of the rates i comes to, each of its flows reckoned once: the allocation's, with what is left of it, every instrument's
// and that of Q; refused at the first that check 11 does not take.
// kept: one flow meets every pattern's rates, and what is left of it is one number, which a type would only wrap and unwrap
fn pattern_row(common: &Common, flow: &Flow, left: i64, i: &NewMoney) -> Result<PatternRow, Refusal>
    requires { Within limit left }
    ensures { (shares : List ℕ) → amounts_of flow.now.amounts ≡ flow_of (shared_in common.now shares) → left ≡ left_in common.now shares
        → one_shown result ≡ row_reckoned (shared_in common.now shares) (rates_of i.now.rates) }
{
    let fund = common.fund(flow, left, i)?;
    let coefficients = common.coefficients(i)?;
    let constant = common.constant(i)?;
    let bound = common.bound(i);
    Ok(PatternRow {
        word: word_of(fund, bound, 0),
        fund,
        bound,
        coefficients,
        constant,
    })
}

// The judgement of a plan that was already checked: every pattern in turn, and the verdict that their words make; refused 11 at the first
// pattern that check 11 does not take.
pub fn judge_accepted(plan: AcceptedPlan<'_>) -> Result<Judged, Refusal>
    ensures { judgement_shown result ≡ judgement_of (numbers plan.entry.plan.now) }
{
    let common = Common::of(plan);
    let allocation = Allocation::of(plan);
    let flow = common.flow(&allocation);
    let left = common.left(&allocation);
    let mut rows = [None; 64];
    for (t, row) in rows[..plan.plan.patterns].iter_mut().enumerate() {
        *row = Some(pattern_row(&common, &flow, left, &patterns::new_money(plan, t))?);
    }
    let Verdict { short, word, .. } = Verdict::of(words_in(&rows));
    Ok(Judged { rows, short, word })
}

// The verdict on a plan, with what each of its patterns comes to; refused by checks 3, 6 to 9, 11 or 13.
pub fn judge(plan: &Plan) -> Result<Judged, Refusal>
    ensures { judgement_shown result ≡ judgement_of (numbers plan.now) }
{
    judge_accepted(plan.accepted()?)
}

// The verdict on a plan; refused by checks 3, 6 to 9, 11 or 13.
pub fn verdict(plan: &Plan) -> Result<Verdict, Refusal>
    ensures is { verdict_shown result ≡ verdict_answer (numbers plan.now) }
    ensures near { VerdictTrue (numbers plan.now) (verdict_shown result) }
    ensures flow { is_some plan.now.opening ≡ false → PlainFlow (numbers plan.now) }
    ensures horizon { is_some plan.now.cost ≡ false → PlainHorizon (numbers plan.now) }
    ensures plain { PlainHeld (held plan.now) → Plain (held plan.now) }
    ensures alike { Alike (held plan.now) }
{
    Ok(judge(plan)?.verdict())
}
