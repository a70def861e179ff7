// The text of a listing, put into a lent buffer.
#![tactic(auto)]

ghost use Rattle.std.specs.Prelude.{◌≡◌, [], ◌∷◌, ◌+◌, ◌*◌, ◌≤◌, pos, length, map};
ghost use Rattle.std.specs.Int.Count.{ones};
ghost use Rattle.io.specs.Counts.{IsPrefixLen};
ghost use Rattle.refusal.specs.Number.{number_of};
ghost use Rattle.little_endian.specs.Wrote.{Wrote};
ghost use Rattle.planner.specs.Shown.{word_number, row_made, row_shown};
ghost use Rattle.planfile.specs.Read.{read_answer};
ghost use Rattle.listing.specs.Shown.{accepted_shown};
ghost use Rattle.listing.specs.Text.{digits_in, signed_text, word_text, field, fields, amounts_text, line_text, lines_text, lowest_short, last_text, refused_text, plan_text, text_of};
ghost use Rattle.listing.specs.Putting.{Free, Put, EachThere, Listed};
ghost use Rattle.listing.specs.Demands.{Demands};

use plan::{AcceptedPlan, Plan};
use planner::{Judged, PatternRow, Word};
use refusal::Refusal;

// The text so far: the bytes of a lent buffer before a place.
// kept, bytes, of bytes: one function for the two would take its turn as a closure over the text, and say in its contract what that puts down
// kept, fields, of bytes: the same
// kept, the fact Free: each method asks for the room that its own bytes take, which no type can know
#[derive(Drop)]
struct Text<'a> {
    buffer: &'a mut [u8],
    at: usize,
}

// Puts a number of at most `most` digits into a buffer from a place on, and answers the place after them. (It goes by value: kept in a text, each
// digit's place would have to wait for that of the one before.)
fn put_digits(buffer: &mut [u8], at: usize, n: u64, most: usize) -> usize
    requires { at + most ≤ length buffer.old }
    ensures wrote { Wrote buffer.old buffer.new at (digits_in most n) result }
    ensures few { result ≤ at + most }
{
    if most == 0 {
        return at;
    }
    // kept: casts, as no From makes a u8 of a u64, and a TryFrom would ask what to do where there is none
    if n < 10 {
        buffer[at] = 48 + n as u8;
        return at + 1;
    }
    let end = put_digits(buffer, at, n / 10, most - 1);
    buffer[end] = 48 + (n % 10) as u8;
    end + 1
}

// The same of a whole number.
fn put_signed(buffer: &mut [u8], at: usize, z: i64) -> usize
    requires { at + 21 ≤ length buffer.old }
    ensures wrote { Wrote buffer.old buffer.new at (signed_text z) result }
    ensures few { result ≤ at + 21 }
{
    let mut place = at;
    if z < 0 {
        buffer[at] = 45;
        place += 1;
    }
    put_digits(buffer, place, z.unsigned_abs(), 20)
}

// kept, a conversion: std's `write!` answers a Result that no clause says is Ok, and a listing cannot fail; so numbers and words are put down by hand
impl Text<'_> {
    // ---- bytes and numbers

    fn byte(&mut self, x: u8)
        requires { Free self.old 1 }
        ensures { Put self.old self.new (x ∷ []) 1 }
    {
        self.buffer[self.at] = x;
        self.at += 1;
    }

    fn bytes(&mut self, text: &[u8])
        requires { Free self.old (length text.now) }
        ensures { Put self.old self.new text.now (length text.now) }
    {
        for &x in text {
            self.byte(x);
        }
    }

    // A number of at most `most` digits.
    fn digits(&mut self, n: u64, most: usize)
        requires { Free self.old most }
        ensures { Put self.old self.new (digits_in most n) most }
    {
        self.at = put_digits(self.buffer, self.at, n, most);
    }

    // A whole number.
    fn signed(&mut self, z: i64)
        requires { Free self.old 21 }
        ensures { Put self.old self.new (signed_text z) 21 }
    {
        self.at = put_signed(self.buffer, self.at, z);
    }

    // A space, and a whole number.
    fn field(&mut self, z: i64)
        requires { Free self.old 22 }
        ensures { Put self.old self.new (field z) 22 }
    {
        let at = self.at;
        self.buffer[at] = 32;
        self.at = put_signed(self.buffer, at + 1, z);
    }

    fn fields(&mut self, amounts: &[i64])
        requires { Free self.old (22 * length amounts.now) }
        ensures { Put self.old self.new (fields (length amounts.now) amounts.now) (22 * length amounts.now) }
    {
        for &z in amounts {
            self.field(z);
        }
    }

    // ---- lines

    fn word(&mut self, word: Word)
        requires { Free self.old 7 }
        ensures { Put self.old self.new (word_text (word_number word)) 7 }
    {
        match word {
            Word::Solvent => self.bytes(b"solvent"),
            Word::Short => self.bytes(b"short"),
            Word::Close => self.bytes(b"close"),
        }
    }

    // Fund, B, K_1 to K_n and Q.
    fn amounts(&mut self, row: &PatternRow, n: usize)
        requires n_bound { n ≤ 16 }
        requires free { Free self.old 418 }
        ensures { Put self.old self.new (amounts_text n (row_made row.now)) 418 }
    {
        self.field(row.fund);
        self.field(row.bound);
        self.fields(&row.coefficients[..n]);
        self.field(row.constant);
    }

    // The line of pattern t.
    fn line(&mut self, t: usize, row: &PatternRow, n: usize)
        requires n_bound { n ≤ 16 }
        requires free { Free self.old 447 }
        ensures { Put self.old self.new (line_text n t (row_made row.now)) 447 }
    {
        // kept: a cast, as no From makes a u64 of a usize
        self.digits(t as u64, 20);
        self.byte(32);
        self.word(row.word);
        self.amounts(row, n);
        self.byte(10);
    }

    // The lines of patterns 1 to m.
    fn lines(&mut self, plan: &Plan, judged: &Judged)
        requires n_bound { plan.now.instruments ≤ 16 }
        requires m_bound { plan.now.patterns ≤ 64 }
        requires each { EachThere plan.now.patterns judged.now.rows }
        requires free { Free self.old (447 * plan.now.patterns) }
        ensures { Put self.old self.new (lines_text plan.now.patterns plan.now.instruments (map row_shown judged.now.rows)) (447 * plan.now.patterns) }
    {
        for (t, row) in judged.rows[..plan.patterns].iter().enumerate() {
            if let Some(row) = row {
                self.line(t + 1, row, plan.instruments);
            }
        }
    }

    // The plan's word, how many patterns are short, and the lowest short number.
    fn last(&mut self, judged: &Judged)
        requires { Free self.old 52 }
        ensures { Put self.old self.new (last_text (word_number judged.now.word) judged.now.short) 52 }
    {
        self.word(judged.word);
        self.field(short_count(judged.short));
        self.field(lowest_short(judged.short));
        self.byte(10);
    }

    // A refusal's line.
    fn refused(&mut self, refusal: Refusal)
        requires { Free self.old 29 }
        ensures { Put self.old self.new (refused_text (number_of refusal)) 29 }
    {
        self.bytes(b"refused ");
        self.digits(u64::from(u8::from(refusal)), 20);
        self.byte(10);
    }

    // ---- the whole text

    // That of a plan, in a frame of its own.
    #[inline(never)]
    fn plan(&mut self, plan: AcceptedPlan<'_>)
        requires { Free self.old 28660 }
        ensures { Put self.old self.new (plan_text plan.entry.plan.now) 28660 }
    {
        match &planner::judge_accepted(plan) {
            Ok(judged) => {
                self.lines(plan.plan, judged);
                self.last(judged);
            }
            Err(refusal) => self.refused(*refusal),
        }
    }
}

// How many patterns are short.
fn short_count(bits: u64) -> i64
    ensures { result ≡ pos (ones bits) }
{
    i64::from(bits.count_ones())
}

// The lowest short number.
fn lowest_short(bits: u64) -> i64
    ensures { result ≡ pos (lowest_short bits) }
{
    if bits == 0 {
        return 0;
    }
    i64::from(bits.trailing_zeros() + 1)
}

// The plan of a file, which is put into a lent one, where no check refuses it.
fn accepted_in<'a>(file: &[u8], plan: &'a mut Plan) -> Result<AcceptedPlan<'a>, Refusal>
    ensures { accepted_shown result ≡ read_answer file.now }
{
    reader::fill(file, plan)?;
    plan.accepted()
}

// The listing of a file, in the first bytes of `out`: how many they are.
pub fn list(file: &[u8], out: &mut [u8; 32768]) -> usize
    ensures is { Listed (text_of file.now) out.old out.new result }
    ensures counts { IsPrefixLen result out.new }
    ensures demands { Demands file.now }
{
    let mut text = Text { buffer: out, at: 0 };
    let mut plan = Plan::empty();
    match accepted_in(file, &mut plan) {
        Ok(plan) => text.plan(plan),
        Err(refusal) => text.refused(refusal),
    }
    text.at
}
