// The planner for programs in C: every call over a plan file's bytes, its answer in lent buffers. include/planner.h declares them.
#![tactic(auto)]

ghost use Rattle.std.specs.Prelude.{◌≡◌, ◌≤◌, eqb, map, take, IsErrAnd};
ghost use Rattle.io.specs.Counts.{IsPrefixLen};
ghost use Rattle.refusal.specs.Number.{number_of, refusal_in};
ghost use Rattle.listing.specs.Text.{text_of};
ghost use Rattle.listing.specs.Putting.{Listed};
ghost use Rattle.listing.specs.Demands.{Demands};
ghost use Rattle.plan.specs.declared.accepted.AcceptedPlan.{AcceptedPlan};
ghost use Rattle.planfile.specs.Records.{held_in};
ghost use Rattle.planfile.specs.Read.{numbers_in, read_answer};
ghost use Rattle.planfile.specs.Write.{write_answer, buffer_after};
ghost use Rattle.planfile.specs.Demand2.{OneFile};
ghost use Rattle.arrays.specs.Arrays.{all_counts, all_amounts, all_shares, all_rates, all_gammas, plan_of_arrays};
ghost use Rattle.reckoning.specs.Level.{LevelEveryYear};
ghost use Rattle.planner.specs.Demand3.{FundNear, FormNear, VerdictTrue};
ghost use Rattle.planner.specs.Shown.{word_shown};
ghost use Rattle.cash.specs.Shown.{cash_shown};
ghost use Rattle.cash.specs.Theorem.{NearEveryYear, CashTrue};
ghost use Rattle.cash.specs.Alike.{CashAlike};
ghost use Rattle.cash.specs.Uncosted.{CashUncosted};
ghost use Rattle.finder.specs.Claims.{FindTrue};
ghost use Rattle.finder.specs.Alike.{FindAlike};
ghost use Rattle.becketgrape.specs.Calls.{fund_of_file, bound_of_file, form_of_file, gammas_of_file, verdict_of_file, cash_of_file, find_of_file};
ghost use Rattle.becketgrape.specs.Level.{LevelOfFile};
ghost use Rattle.becketgrape.specs.Alike.{WriteAlike};

use arrays::PlanArrays;
use cash::CashAccount;
use patterns::Form;
use plan::{AcceptedPlan, Plan};
use planner::Word;
use reckoning::Row;
use refusal::Refusal;

// What a call answers for the plan of a file that the checks take, or the refusal of the file.
fn on_file<T, F: FnOnce(AcceptedPlan<'_>) -> Result<T, Refusal>>(
    file: &[u8],
    call: F,
) -> Result<T, Refusal>
    requires { F.IsAlwaysCallable call }
    ensures refused { ((read_answer file.now).refusal ≡ 0 → ⊥) → IsErrAnd result (λ no. number_of no ≡ (read_answer file.now).refusal) }
    ensures called { (read_answer file.now).refusal ≡ 0
        → ((plan : AcceptedPlan) × (plan.plan.now ≡ (read_answer file.now).plan) × F.post call plan result) }
{
    let mut plan = Plan::empty();
    reader::fill(file, &mut plan)?;
    call(plan.accepted()?)
}

// The number of an answer's refusal, 0 where it has none.
fn number_in<T>(answer: &Result<T, Refusal>) -> u8
    ensures { result ≡ refusal_in answer.now }
{
    match answer {
        Ok(_) => 0,
        Err(refusal) => u8::from(*refusal),
    }
}

// The listing of a file, in the first bytes of `out`: how many they are.
#[unsafe(no_mangle)]
pub extern "C" fn planner_list(file: &[u8], out: &mut [u8; 32768]) -> usize
    ensures is { Listed (text_of file.now) out.old out.new result }
    ensures counts { IsPrefixLen result out.new }
    ensures demands { Demands file.now }
{
    listing::list(file, out)
}

// ---- the plan file

// The plan that a file holds, in arrays; on a refusal, zeros.
#[unsafe(no_mangle)]
pub extern "C" fn planner_read(
    file: &[u8],
    counts: &mut [usize; 134],
    amounts: &mut [i64; 556],
    shares: &mut [u32; 46],
    rates: &mut [i32; 2048],
) -> u8
    ensures value { result ≡ (read_answer file.now).refusal }
    ensures counts_after { counts.new ≡ all_counts (read_answer file.now).plan }
    ensures amounts_after { amounts.new ≡ all_amounts (read_answer file.now).plan }
    ensures shares_after { shares.new ≡ all_shares (read_answer file.now).plan }
    ensures rates_after { rates.new ≡ all_rates (read_answer file.now).plan }
    ensures kept { result ≡ 0 → OneFile file.now
        (plan_of_arrays counts.new amounts.new shares.new rates.new) }
{
    let found = reader::read(file);
    let empty = Plan::empty();
    let plan = found.as_ref().unwrap_or(&empty);
    arrays::put_counts(plan, counts);
    arrays::put_amounts(plan, amounts);
    arrays::put_shares(plan, shares);
    arrays::put_rates(plan, rates);
    number_in(&found)
}

// The file of a plan that arrays hold, in the first bytes of `buffer`, and its length; on a refusal the buffer is untouched. What the arrays
// carry where nothing is held plays no part.
#[unsafe(no_mangle)]
pub extern "C" fn planner_write(
    counts: &[usize; 134],
    amounts: &[i64; 556],
    shares: &[u32; 46],
    rates: &[i32; 2048],
    buffer: &mut [u8],
    length: &mut usize,
) -> u8
    ensures length_after { record { refusal = result; length = length.new }
        ≡ write_answer (plan_of_arrays counts.now amounts.now shares.now rates.now) buffer.old }
    ensures buffer_after { buffer.new
        ≡ buffer_after (plan_of_arrays counts.now amounts.now shares.now rates.now) buffer.old }
    ensures kept { result ≡ 0 → OneFile (take length.new buffer.new)
        (plan_of_arrays counts.now amounts.now shares.now rates.now) }
    ensures alike { WriteAlike (record { counts = counts.now; amounts = amounts.now; shares = shares.now; rates = rates.now }) buffer.old }
{
    let arrays = PlanArrays {
        counts,
        amounts,
        shares,
        rates,
    };
    let answer = writer::write(&arrays.plan(), buffer);
    *length = answer.unwrap_or(0);
    number_in(&answer)
}

// ---- the calls on one pattern of a file: each answers the refusal of the reading, or else for the plan that was read

// The fund with what is left at the horizon, never above the exact fund, which has it inside too, and below it by less than the bound. At
// level rates another rollover moves it by less than the bound.
// kept: the C interface, whose parameters these are
#[unsafe(no_mangle)]
pub extern "C" fn planner_fund(file: &[u8], pattern: usize, fund: &mut i64) -> u8
    ensures is { record { refusal = result; fund = fund.new } ≡ fund_of_file file.now pattern }
    ensures near { FundNear (numbers_in file.now) pattern (record { refusal = result; fund = fund.new }) }
    ensures level { LevelOfFile file.now pattern (record { refusal = result; fund = fund.new }) }
    ensures theorem { LevelEveryYear }
{
    let answer = on_file(file, |accepted| planner::fund(accepted.plan, pattern));
    *fund = answer.unwrap_or(0);
    number_in(&answer)
}

// The bound B.
// kept: the C interface, whose parameters these are
#[unsafe(no_mangle)]
pub extern "C" fn planner_bound(file: &[u8], pattern: usize, bound: &mut i64) -> u8
    ensures { record { refusal = result; bound = bound.new } ≡ bound_of_file file.now pattern }
{
    let answer = on_file(file, |accepted| planner::bound(accepted.plan, pattern));
    *bound = answer.unwrap_or(0);
    number_in(&answer)
}

// The linear form: K_1 to K_n, Q, and its value at the plan's allocation.
// kept: the C interface, whose parameters these are
#[unsafe(no_mangle)]
pub extern "C" fn planner_form(
    file: &[u8],
    pattern: usize,
    coefficients: &mut [i64; 16],
    constant: &mut i64,
    value: &mut i64,
) -> u8
    ensures is { record { refusal = result; coefficients = coefficients.new; constant = constant.new; value = value.new }
        ≡ form_of_file file.now pattern }
    ensures near { FormNear (numbers_in file.now) pattern
        (record { refusal = result; coefficients = coefficients.new; constant = constant.new; value = value.new }) }
{
    let answer = on_file(file, |accepted| planner::form(accepted.plan, pattern));
    let form = answer.unwrap_or(Form {
        coefficients: [0; 16],
        constant: 0,
        value: 0,
    });
    let each = form.coefficients;
    *coefficients = each;
    *constant = form.constant;
    *value = form.value;
    number_in(&answer)
}

// The table of gammas.
// kept: the C interface, whose parameters these are
#[unsafe(no_mangle)]
pub extern "C" fn planner_gammas(file: &[u8], pattern: usize, gammas: &mut [i64; 900]) -> u8
    ensures value { result ≡ (gammas_of_file file.now pattern).refusal }
    ensures gammas_after { gammas.new ≡ all_gammas (gammas_of_file file.now pattern).rows }
{
    let answer = on_file(file, |accepted| planner::gammas(accepted.plan, pattern));
    arrays::put_gammas(&answer.unwrap_or([Row { values: [0; 30] }; 30]), gammas);
    number_in(&answer)
}

// ---- the verdict

// The number of each pattern's word, 0 past the last pattern.
fn numbers_of(words: [Option<Word>; 64]) -> [u8; 64]
    ensures { result ≡ map word_shown words }
{
    words.map(|word| word.map_or(0, u8::from))
}

// The word of each pattern, the short ones as bits, and the plan's word; each is true of the exact fund.
#[unsafe(no_mangle)]
pub extern "C" fn planner_verdict(
    file: &[u8],
    words: &mut [u8; 64],
    shorts: &mut u64,
    word: &mut u8,
) -> u8
    ensures is { record { refusal = result; words = words.new; short = shorts.new; word = word.new }
        ≡ verdict_of_file file.now }
    ensures near { VerdictTrue (numbers_in file.now)
        (record { refusal = result; words = words.new; short = shorts.new; word = word.new }) }
{
    match on_file(file, planner::judge_accepted) {
        Ok(judged) => {
            let verdict = judged.verdict();
            *words = numbers_of(verdict.words);
            *shorts = verdict.short;
            *word = u8::from(verdict.word);
            0
        }
        Err(refusal) => {
            *words = [0; 64];
            *shorts = 0;
            *word = 0;
            u8::from(refusal)
        }
    }
}

// ---- the cash account

// The refusal of the file's records, or the answer for the plan that they hold and the two lists.
// kept: two lists side by side, as the C interface lends them
fn cash_of_file(file: &[u8], lending: &[i32], borrowing: &[i32]) -> Result<CashAccount, Refusal>
    ensures { cash_shown result ≡ cash_of_file file.now lending.now borrowing.now }
{
    cash::cash(&reader::read_unchecked(file)?, lending, borrowing)
}

// The cash account, never above the exact one and below it by less than its bound, and its word, which is true of the exact account.
// kept: the C interface, whose parameters these are
#[unsafe(no_mangle)]
pub extern "C" fn planner_cash(
    file: &[u8],
    lending: &[i32],
    borrowing: &[i32],
    account: &mut i64,
    bound: &mut i64,
    word: &mut u8,
) -> u8
    ensures is { record { refusal = result; account = account.new; bound = bound.new; word = word.new }
        ≡ cash_of_file file.now lending.now borrowing.now }
    ensures near { CashTrue (numbers_in file.now) lending.now borrowing.now
        (record { refusal = result; account = account.new; bound = bound.new; word = word.new }) }
    ensures theorem { NearEveryYear }
    ensures alike { CashAlike (held_in file.now) lending.now borrowing.now }
    ensures uncosted { CashUncosted (numbers_in file.now) lending.now borrowing.now }
{
    match cash_of_file(file, lending, borrowing) {
        Ok(cash) => {
            *account = cash.account;
            *bound = cash.bound;
            *word = u8::from(cash.word);
            0
        }
        Err(refusal) => {
            *account = 0;
            *bound = 0;
            *word = 0;
            u8::from(refusal)
        }
    }
}

// ---- the search for an allocation

// An allocation in so many parts whose verdict is solvent: `found` is 1, and the shares are its own; or 0 and zeros, where there is none.
#[unsafe(no_mangle)]
pub extern "C" fn planner_find(
    file: &[u8],
    parts: usize,
    found: &mut u8,
    shares: &mut [u32; 16],
) -> u8
    ensures is { record { refusal = result; found = eqb found.new 1; shares = shares.new } ≡ find_of_file file.now parts }
    ensures bit { found.new ≤ 1 }
    ensures says { FindTrue (numbers_in file.now) parts
        (record { refusal = result; found = eqb found.new 1; shares = shares.new }) }
    ensures never { result ≡ 11 → ⊥ }
    ensures alike { FindAlike (held_in file.now) parts }
{
    let answer = on_file(file, |accepted| finder::find_accepted(accepted, parts));
    let allocation = answer.unwrap_or(None);
    *found = u8::from(allocation.is_some());
    *shares = allocation.unwrap_or([0; 16]);
    number_in(&answer)
}
