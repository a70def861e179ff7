// Plan files, read into a plan held as values.
#![tactic(auto)]

ghost use Rattle.std.specs.Prelude.{◌≡◌, true, false, ◌+◌, ◌*◌, ◌-◌, ◌≤◌, leb, length, IfOk, IfErr};
ghost use Rattle.std.specs.Iterator.{at_most};
ghost use Rattle.refusal.specs.Number.{refusal_in};
ghost use Rattle.whole.specs.Table.{table};
ghost use Rattle.little_endian.specs.Runs.{number_at};
ghost use Rattle.records.specs.Cursor.{whole_file};
ghost use Rattle.plan.specs.Held.{no_plan, plan_from, Typed};
ghost use Rattle.plan.specs.Numbers.{numbers};
ghost use Rattle.plan.specs.Refusal.{check, Accepted};
ghost use Rattle.planfile.specs.Kinds.{role_number};
ghost use Rattle.planfile.specs.Groups.{groups_of};
ghost use Rattle.planfile.specs.Checks.{has_role, shape_in, first_ok, roles_ok, sizes_ok, layout_refusal};
ghost use Rattle.planfile.specs.Records.{record_in, held_of, held_in};
ghost use Rattle.planfile.specs.Answers.{read_shown};
ghost use Rattle.planfile.specs.Read.{reading_of};
ghost use Rattle.planfile.specs.Demand2.{OneFile};
ghost use Rattle.planfile.specs.Reading.{Laid};
ghost use Rattle.reader.specs.Reading.{GivesEntry, rates_read, slope_read};

use little_endian::Number;
use plan::{Instrument, Pattern, Plan, Shape};
use planfile::{Kind, Role, Shaped};
use refusal::Refusal;

// ---- the records of a file

// A record of a file: its kind, its body, and the place where it ends.
#[derive(Clone, Copy)]
struct Entry<'a> {
    // kept: any number may stand in a file, and `Kind::of` says which kind it is of, if any; to hold the answer here is no plainer
    kind: usize,
    body: &'a [u8],
    end: usize,
}

// The records of a file from a place on, one after the other, up to where no whole one stands.
#[derive(Clone, Copy)]
struct Walk<'a> {
    file: &'a [u8],
    at: usize,
}

impl<'a> Walk<'a> {
    // All records of a file.
    fn of(file: &'a [u8]) -> Walk<'a>
        ensures { result ≡ record { file = file.entry; at = 0 } }
    {
        Walk { file, at: 0 }
    }
}

impl<'a> Iterator for Walk<'a> {
    type Item = Entry<'a>;

    ghost next_gives = { GivesEntry };

    ghost remaining = { λ walk. at_most (length walk.file.now - walk.at) };

    fn next(&mut self) -> Option<Entry<'a>> {
        let record = records::next_at(self.file, self.at).ok()?;
        self.at = record.end;
        Some(Entry {
            kind: record.kind,
            body: &self.file[record.start..record.end],
            end: record.end,
        })
    }
}

// ---- the checks on records

// Check 1: a file is at most 16,384 bytes long.
fn length_ok(file: &[u8]) -> Result<(), Refusal>
    ensures { refusal_in result ≡ check (leb (length file.now) 16_384) 1 0 }
{
    if file.len() > 16_384 {
        Err(Refusal::FileLength)
    } else {
        Ok(())
    }
}

// Check 2: whole records end with the file.
fn whole_file(file: &[u8]) -> Result<(), Refusal>
    ensures { refusal_in result ≡ check (whole_file file.now) 2 0 }
{
    let mut end = 0;
    for record in Walk::of(file) {
        end = record.end;
    }
    if end == file.len() {
        Ok(())
    } else {
        Err(Refusal::Records)
    }
}

// Whether record t, counted from 0, is there and has this role.
fn has_role(file: &[u8], t: usize, role: Role) -> bool
    ensures { result ≡ has_role file.now t (role_number role) }
{
    match Walk::of(file).nth(t) {
        Some(record) => planfile::role_of(record.kind) == Some(role),
        None => false,
    }
}

// Check 3: the first record is a kind 1 of four bytes, whose numbers are in their ranges. The shape of a file is these four numbers,
// whether a kind 7 stands right after where kind 3 stands, and whether a kind 9 stands there, or right after kind 7 where that is there.
fn head(file: &[u8]) -> Result<Shaped, Refusal>
    ensures is { refusal_in result ≡ check (first_ok file.now) 3 0 }
    ensures shape { IfOk result (λ shaped. shaped.shape ≡ shape_in file.now) }
{
    let Some(first) = Walk::of(file).next() else {
        return Err(Refusal::Head);
    };
    if Kind::of(first.kind) != Some(Kind::Head) {
        return Err(Refusal::Head);
    }
    let &[years, instruments, terms, patterns] = first.body else {
        return Err(Refusal::Head);
    };
    let n = usize::from(instruments);
    let opened = has_role(file, 2 + n, Role::Opening);
    Shaped::of(Shape {
        years: usize::from(years),
        instruments: n,
        terms: usize::from(terms),
        patterns: usize::from(patterns),
        opened,
        costed: has_role(file, 2 + n + usize::from(opened), Role::Cost),
    })
}

// A file, and the shape that its first record gives it.
#[derive(Clone, Copy)]
struct ShapedFile<'a> {
    file: &'a [u8],
    shaped: Shaped,
}

impl<'a> ShapedFile<'a> {
    // Check 4: the role of each record is that of its spot.
    fn roles_ok(self) -> Result<(), Refusal>
        ensures { refusal_in result ≡ check (roles_ok self.entry.file.now (groups_of self.entry.shaped.shape)) 4 0 }
    {
        let mut seen = 0;
        let mut end = 0;
        for (t, record) in Walk::of(self.file).enumerate() {
            let Some(spot) = planfile::spot_at(self.shaped.shape, t) else {
                return Err(Refusal::Order);
            };
            if planfile::role_of(record.kind) != Some(spot.role) {
                return Err(Refusal::Order);
            }
            seen = t + 1;
            end = record.end;
        }
        if seen == self.shaped.count() && end == self.file.len() {
            Ok(())
        } else {
            Err(Refusal::Order)
        }
    }

    // Check 5, for a file that has passed check 4: the length of each body is that of its kind.
    fn sizes_ok(self) -> Result<(), Refusal>
        requires { roles_ok self.file.now (groups_of self.shaped.shape) ≡ true }
        ensures { refusal_in result ≡ check (sizes_ok self.entry.file.now self.entry.shaped.shape) 5 0 }
    {
        for record in Walk::of(self.file) {
            if record.body.len() != self.shaped.size_of(record.kind) {
                return Err(Refusal::Size);
            }
        }
        Ok(())
    }
}

// A file that passes checks 1 to 5, in their order.
fn layout(file: &[u8]) -> Result<ShapedFile<'_>, Refusal>
    ensures is { refusal_in result ≡ layout_refusal file.now }
    ensures file { IfOk result (λ shaped. shaped.file ≡ file.entry) }
    ensures shape { IfOk result (λ shaped. shaped.shaped.shape ≡ shape_in file.now) }
{
    length_ok(file)?;
    whole_file(file)?;
    let shaped = ShapedFile {
        file,
        shaped: head(file)?,
    };
    shaped.roles_ok()?;
    shaped.sizes_ok()?;
    Ok(shaped)
}

// ---- the bodies

// The first n numbers of a body in an array, which has `zero` past them.
// kept: `n` counts numbers of several bytes each, of which a body is no slice; a part of the body in its place is no plainer
fn numbers<T: Number, const M: usize>(body: &[u8], n: usize, zero: T) -> [T; M]
    requires few { n ≤ M }
    requires sized { T.SIZE * n ≤ length body.now }
    ensures { result ≡ table M n (λ k. T.number_of (number_at T.SIZE body.now k)) zero }
{
    std::array::from_fn(
        |k|
            requires { T.SIZE * n ≤ length body.now }
        {
            if k < n {
                T::at(body, T::SIZE * k)
            } else {
                zero
            }
        },
    )
}

// The first n rates of a body.
fn rates(body: &[u8], n: usize) -> [i32; 30]
    requires few { n ≤ 30 }
    requires sized { 4 * n ≤ length body.now }
    ensures { result ≡ rates_read n body.now }
{
    numbers(body, n, 0)
}

// The slope of a body: its start, its step and its T.
fn slope(body: &[u8]) -> Pattern
    requires { 9 ≤ length body.now }
    ensures { result ≡ slope_read body.now }
{
    Pattern::Slope {
        start: i32::at(body, 0),
        step: i32::at(body, 4),
        until: body[8],
    }
}

// ---- the plan

impl<'a> ShapedFile<'a> {
    // Puts what the records of a file hold, which has passed checks 1 to 5, into a plan that holds nothing: a record's kind decides the
    // reading of its body, and its spot which instrument or pattern it is. After check 4 each record has both.
    fn put(self, plan: &mut Plan)
        requires laid { Laid self.file.now self.shaped.shape }
        requires empty { plan.old ≡ no_plan }
        ensures { plan.new ≡ plan_from (held_of self.entry.shaped.shape (record_in self.entry.file.now self.entry.shaped.shape)) }
    {
        let shape = self.shaped.shape;
        for (t, record) in Walk::of(self.file).enumerate() {
            let (Some(kind), Some(spot)) = (Kind::of(record.kind), planfile::spot_at(shape, t))
            else {
                return;
            };
            let body = record.body;
            match kind {
                Kind::Head => {
                    plan.years = shape.years;
                    plan.instruments = shape.instruments;
                    plan.terms = shape.terms;
                    plan.patterns = shape.patterns;
                }
                Kind::Instrument => {
                    let payments = numbers(body, shape.years, 0);
                    plan.instrument[spot.index] = Instrument { payments };
                }
                Kind::Outflows => {
                    plan.outflows = numbers(body, shape.years, 0);
                }
                Kind::Rollover => {
                    plan.rollover = numbers(body, shape.terms, 0);
                }
                Kind::Rates => {
                    plan.pattern[spot.index] = Pattern::Rates(rates(body, shape.years - 1));
                }
                Kind::Allocation => {
                    plan.allocation = numbers(body, shape.instruments, 0);
                }
                Kind::Opening => {
                    plan.opening = Some(numbers(body, shape.years, 0));
                }
                Kind::Slope => {
                    plan.pattern[spot.index] = slope(body);
                }
                Kind::Cost => {
                    plan.cost = Some(numbers(body, shape.instruments, 0));
                }
            }
        }
    }
}

// Makes a plan the one that the records of a file hold, whatever its numbers: checks 1 to 5 alone. Where they refuse, it is as it was.
#[inline(never)]
pub fn fill(file: &[u8], plan: &mut Plan) -> Result<(), Refusal>
    ensures is { refusal_in result ≡ layout_refusal file.now }
    ensures filled { IfOk result (λ _. plan.new ≡ plan_from (held_in file.now)) }
    ensures same { IfErr result (λ _. plan.new ≡ plan.old) }
{
    let shaped = layout(file)?;
    *plan = Plan::empty();
    shaped.put(plan);
    Ok(())
}

// The plan that a file holds, or why it is refused: by checks 1 to 5 on its records, and by those on its numbers, 6 to 9 with 13 right
// before 8.
#[inline(never)]
pub fn read(file: &[u8]) -> Result<Plan, Refusal>
    ensures is { read_shown result ≡ reading_of file.now true }
    ensures kept { IfOk result (λ plan. OneFile file.now plan) }
    ensures accepted { IfOk result (λ plan. Accepted (numbers plan)) }
    ensures typed { IfOk result (λ plan. Typed plan) }
{
    let mut plan = Plan::empty();
    fill(file, &mut plan)?;
    plan.accepted()?;
    Ok(plan)
}

// The same without the checks on its numbers. A call with lists of its own makes these itself, as it has checks between them.
#[inline(never)]
pub fn read_unchecked(file: &[u8]) -> Result<Plan, Refusal>
    ensures { read_shown result ≡ reading_of file.now false }
{
    let mut held = Plan::empty();
    fill(file, &mut held)?;
    Ok(held)
}
