// The writer of plan files: a plan's records, one after the other, into a lent buffer.
#![tactic(auto)]

ghost use Rattle.std.specs.Prelude.{◌≡◌, ◌++◌, ◌≤◌, ◌<◌, length, take, Some, IfOk};
ghost use Rattle.little_endian.specs.LittleEndian.{bytes_of};
ghost use Rattle.records.specs.Record.{record_bytes, file_bytes};
ghost use Rattle.plan.specs.Held.{pattern_held, held};
ghost use Rattle.planfile.specs.Kinds.{kind_number, role_number};
ghost use Rattle.planfile.specs.Groups.{spot_shown};
ghost use Rattle.planfile.specs.Rows.{rec, head_rec, pattern_rec};
ghost use Rattle.planfile.specs.Records.{file_of};
ghost use Rattle.planfile.specs.Reading.{InRange};
ghost use Rattle.planfile.specs.Answers.{write_shown};
ghost use Rattle.planfile.specs.Write.{write_answer, buffer_after};
ghost use Rattle.planfile.specs.Demand2.{OneFile};
ghost use Rattle.writer.specs.Rows.{numbers_bytes, instrument_recs, pattern_recs, optional_recs, kind_at};
ghost use Rattle.writer.specs.Put.{Free, Put};

use little_endian::Number;
use plan::{AcceptedPlan, Instrument, Pattern, Plan, Shape};
use planfile::{Kind, Role, Shaped, Spot};
use refusal::Refusal;

// A place in a lent buffer, before which stands what has been written.
// kept, the fact Free: each method asks for room for bytes of its own, which no one fact of a pen says
// kept, an array or a slice with years beside it: the years are no length of the rows
#[derive(Drop)]
struct Pen<'a> {
    buffer: &'a mut [u8],
    at: usize,
}

impl Pen<'_> {
    // ---- numbers

    fn number<T: Number>(&mut self, x: T)
        requires { Free self.old (bytes_of T.SIZE (T.bits_of x)) }
        ensures { Put self.old self.new (bytes_of T.SIZE (T.bits_of x)) }
    {
        x.put(self.buffer, self.at);
        self.at += T::SIZE;
    }

    fn numbers<T: Number>(&mut self, xs: &[T])
        requires { Free self.old (numbers_bytes T.SIZE T.bits_of (length xs.now) xs.now) }
        ensures { Put self.old self.new (numbers_bytes T.SIZE T.bits_of (length xs.now) xs.now) }
    {
        for x in xs {
            self.number(*x);
        }
    }

    // ---- records

    // The four bytes in front of a body: its length and its kind.
    fn front(&mut self, kind: Kind, size: u16)
        requires { Free self.old (bytes_of 2 size ++ bytes_of 2 (kind_number kind)) }
        ensures { Put self.old self.new (bytes_of 2 size ++ bytes_of 2 (kind_number kind)) }
    {
        self.number(size);
        self.number(u16::from(kind));
    }

    // A record of numbers.
    fn record<T: Number>(&mut self, kind: Kind, xs: &[T])
        requires few { length xs.now ≤ 30 }
        requires free { Free self.old (record_bytes (rec (kind_number kind) (numbers_bytes T.SIZE T.bits_of (length xs.now) xs.now))) }
        ensures { Put self.old self.new (record_bytes (rec (kind_number kind) (numbers_bytes T.SIZE T.bits_of (length xs.now) xs.now))) }
    {
        self.front(kind, (T::SIZE * xs.len()) as u16);
        self.numbers(xs);
    }

    // The head's record: N, n, q and m, a byte each.
    fn head(&mut self, shape: Shape)
        requires in_range { InRange shape }
        requires free { Free self.old (record_bytes (head_rec shape)) }
        ensures { Put self.old self.new (record_bytes (head_rec shape)) }
    {
        // kept, a cast: each is proved to lose nothing, and `u8::try_from` answers an error that cannot come
        let numbers = [
            shape.years as u8,
            shape.instruments as u8,
            shape.terms as u8,
            shape.patterns as u8,
        ];
        self.record(Kind::Head, &numbers);
    }

    // The instruments' records: what each pays in each year.
    fn instruments(&mut self, rows: &[Instrument], years: usize)
        requires few { years ≤ 30 }
        requires free { Free self.old (file_bytes (instrument_recs years (length rows.now) rows.now)) }
        ensures { Put self.old self.new (file_bytes (instrument_recs years (length rows.now) rows.now)) }
    {
        for row in rows {
            self.record(Kind::Instrument, &row.payments[..years]);
        }
    }

    // The record of a kind that may be absent.
    fn optional<const N: usize>(&mut self, kind: Kind, amounts: &Option<[i64; N]>, n: usize)
        requires within { n ≤ N }
        requires few { n ≤ 30 }
        requires free { Free self.old (file_bytes (optional_recs (kind_number kind) n amounts.now)) }
        ensures { Put self.old self.new (file_bytes (optional_recs (kind_number kind) n amounts.now)) }
    {
        if let Some(amounts) = amounts {
            self.record(kind, &amounts[..n]);
        }
    }

    // A pattern's record, of the kind that it is held as.
    fn pattern(&mut self, row: &Pattern, years: usize)
        requires some { 1 ≤ years }
        requires few { years ≤ 30 }
        requires free { Free self.old (record_bytes (pattern_rec years (pattern_held years row.now))) }
        ensures { Put self.old self.new (record_bytes (pattern_rec years (pattern_held years row.now))) }
    {
        match *row {
            Pattern::Rates(ref rates) => self.record(Kind::Rates, &rates[..years - 1]),
            Pattern::Slope { start, step, until } => {
                self.front(Kind::Slope, 9);
                self.number(start);
                self.number(step);
                self.number(until);
            }
        }
    }

    fn patterns(&mut self, rows: &[Pattern], years: usize)
        requires some { 1 ≤ years }
        requires few { years ≤ 30 }
        requires free { Free self.old (file_bytes (pattern_recs years (length rows.now) rows.now)) }
        ensures { Put self.old self.new (file_bytes (pattern_recs years (length rows.now) rows.now)) }
    {
        for row in rows {
            self.pattern(row, years);
        }
    }

    // ---- the file

    fn file(&mut self, accepted: AcceptedPlan<'_>)
        requires { Free self.old (file_of (held accepted.plan.now)) }
        ensures { Put self.old self.new (file_of (held accepted.entry.plan.now)) }
    {
        let plan = accepted.plan;
        let shape = plan.shape();
        let years = plan.years;
        let n = plan.instruments;
        for group in planfile::groups_of(shape) {
            match group.role {
                Role::Head => self.head(shape),
                Role::Instrument => self.instruments(&plan.instrument[..n], years),
                Role::Outflows => self.record(Kind::Outflows, &plan.outflows[..years]),
                Role::Opening => self.optional(Kind::Opening, &plan.opening, years),
                Role::Cost => self.optional(Kind::Cost, &plan.cost, n),
                Role::Rollover => self.record(Kind::Rollover, &plan.rollover[..plan.terms]),
                Role::Pattern => self.patterns(&plan.pattern[..plan.patterns], years),
                Role::Allocation => self.record(Kind::Allocation, &plan.allocation[..n]),
            }
        }
    }
}

// The kind of the record at a spot: a pattern's goes by its row, every other is the first of its role.
fn kind_at(rows: &[Pattern], spot: Spot) -> Kind
    requires { role_number spot.role ≡ 5 → spot.index < length rows.now }
    ensures { kind_number result ≡ kind_at rows.now (spot_shown (Some spot)) }
{
    match spot.role {
        Role::Head => Kind::Head,
        Role::Instrument => Kind::Instrument,
        Role::Outflows => Kind::Outflows,
        Role::Opening => Kind::Opening,
        Role::Cost => Kind::Cost,
        Role::Rollover => Kind::Rollover,
        Role::Pattern => match rows[spot.index] {
            Pattern::Rates(_) => Kind::Rates,
            Pattern::Slope { .. } => Kind::Slope,
        },
        Role::Allocation => Kind::Allocation,
    }
}

// The length of the plan's file: each record has four bytes and its body, whose length goes by its kind.
fn file_size(accepted: AcceptedPlan<'_>) -> usize
    ensures { result ≡ length (file_of (held accepted.entry.plan.now)) }
{
    let plan = accepted.plan;
    let shaped = Shaped {
        shape: plan.shape(),
    };
    let mut size = 0;
    for t in 0..shaped.count() {
        let Some(spot) = planfile::spot_at(shaped.shape, t) else {
            return size;
        };
        let kind = kind_at(&plan.pattern, spot);
        size += 4 + shaped.size_of(usize::from(u16::from(kind)));
    }
    size
}

// The plan's file in the first bytes of the buffer, and its length; or why there is none: the first of the checks 3, 6 to 9, with 13 right
// before 8, and 12 that fails.
pub fn write(plan: &Plan, buffer: &mut [u8]) -> Result<usize, Refusal>
    ensures is { write_shown result ≡ write_answer plan.now buffer.old }
    ensures left { buffer.new ≡ buffer_after plan.now buffer.old }
    ensures kept { IfOk result (λ length. OneFile (take length buffer.new) plan.now) }
{
    let accepted = plan.accepted()?;
    let length = file_size(accepted);
    if buffer.len() < length {
        return Err(Refusal::Room);
    }
    let mut pen = Pen { buffer, at: 0 };
    pen.file(accepted);
    Ok(length)
}
