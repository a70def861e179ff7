// What a plan's patterns come to: their words, their rows, and the verdict that they make.

ghost use Rattle.std.specs.Prelude.{◌≡◌, map, ℕ, eqb, get_or, None, pos};
ghost use Rattle.whole.specs.Range.{limit, Between, Within};
ghost use Rattle.planner.specs.Verdict.{short, word_of, bits_of, plan_word_of};
ghost use Rattle.planner.specs.Rows.{verdict_of};
ghost use Rattle.planner.specs.Shown.{word_number, word_shown, row_shown, Words, verdict_made, judgement_made};

// The word of a pattern, or of a plan.
#[derive(Clone, Copy, PartialEq, Eq)]
pub enum Word {
    // the exact fund is zero or more
    Solvent,
    // it is below zero
    Short,
    // the fund with its bound cannot tell
    Close,
}

impl From<Word> for u8 {
    ghost from_gives = { λ word number. number ≡ word_number word };

    fn from(word: Word) -> u8 {
        match word {
            Word::Solvent => 1,
            Word::Short => 2,
            Word::Close => 3,
        }
    }
}

// What one pattern comes to: its word, its fund and bound, K_1 to K_n and Q.
#[derive(Clone, Copy)]
pub struct PatternRow {
    pub word: Word,
    pub fund: i64,
    pub bound: i64,
    pub coefficients: [i64; 16],
    pub constant: i64,
}

// The word of every pattern, and none past the last; the short ones as bits, bit t - 1 for pattern t; the plan's word.
#[derive(Clone, Copy)]
pub struct Verdict {
    pub words: [Option<Word>; 64],
    pub short: u64,
    pub word: Word,
}

// A verdict by the rows that it was made of, the word of each pattern in its row.
#[derive(Clone, Copy)]
pub struct Judged {
    pub rows: [Option<PatternRow>; 64],
    pub short: u64,
    pub word: Word,
}

// The word of a fund z with the bound b, against c: solvent from c on, short where z + b is c or less, else close.
// kept: a type for a number within the limit would only wrap what a fund or a cash account answers
pub fn word_of(z: i64, b: i64, c: i64) -> Word
    requires within { Within limit z }
    requires between { Between (pos 0) (pos 4_294_967_296) b }
    ensures { word_number result ≡ word_of z b c }
{
    if z >= c {
        Word::Solvent
    } else if z + b <= c {
        Word::Short
    } else {
        Word::Close
    }
}

// The words of the rows.
pub(crate) fn words_in(rows: &[Option<PatternRow>; 64]) -> [Option<Word>; 64]
    ensures { map word_shown result ≡ map (λ row. (row_shown row).word) rows.now }
{
    std::array::from_fn(|t| rows[t].map(|row| row.word))
}

// The short ones of the words as bits, the lowest that of the first word.
fn short_bits(words: &[Option<Word>; 64]) -> u64
    ensures { result ≡ bits_of 64 (λ t. eqb (word_shown (get_or words.now t None)) short) }
{
    let mut bits = 0;
    for (t, word) in words.iter().enumerate() {
        if *word == Some(Word::Short) {
            bits |= 1 << t;
        }
    }
    bits
}

// The plan's word, of its patterns' words and the short ones as bits: short if a bit is set, else solvent if every word is, else close.
fn plan_word(words: &[Option<Word>; 64], short: u64) -> Word
    ensures { (m : ℕ) → Words m words.now → word_number result ≡ plan_word_of m (λ t. word_shown (get_or words.now t None)) short }
{
    if short != 0 {
        Word::Short
    } else if words.iter().flatten().all(|word| *word == Word::Solvent) {
        Word::Solvent
    } else {
        Word::Close
    }
}

impl Verdict {
    // The verdict that the words of a plan's patterns make.
    pub(crate) fn of(words: [Option<Word>; 64]) -> Verdict
        ensures { (m : ℕ) → Words m words → verdict_made result ≡ verdict_of m (map word_shown words) }
    {
        let short = short_bits(&words);
        Verdict {
            words,
            short,
            word: plan_word(&words, short),
        }
    }
}

impl Judged {
    // The verdict, with the words alone.
    pub fn verdict(&self) -> Verdict
        ensures { verdict_made result ≡ (judgement_made self.now).verdict }
    {
        Verdict {
            words: words_in(&self.rows),
            short: self.short,
            word: self.word,
        }
    }
}
