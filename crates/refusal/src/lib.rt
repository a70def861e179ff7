// Why a plan is refused: a word for each check, and its number.
#![tactic(auto)]

ghost use Rattle.std.specs.Prelude.{◌≡◌};
ghost use Rattle.refusal.specs.Number.{number_of};

// By their numbers, from 1 to 15. The checks come in this order, but for Until, which stands right before Rate, Lists, right after it,
// and Parts, right before PatternNumber.
#[derive(Clone, Copy, PartialEq, Eq)]
pub enum Refusal {
    // the file is longer than a plan file may be
    FileLength,
    // the last record is not whole
    Records,
    // the head is missing, or a number in it is outside its range
    Head,
    // the kinds of the records are not those of a plan, in their order
    Order,
    // a record's length is not what its kind and the head require
    Size,
    // a payment, an outflow or an amount of the opening or of the cost is outside its range
    Amount,
    // the rollover's shares do not sum to 1,000,000
    Rollover,
    // a rate is outside its range
    Rate,
    // the allocation does not sum to 1,000,000
    Allocation,
    // there is no pattern with the number that is asked for
    PatternNumber,
    // a cell, a fund or a cash account is outside the limit
    OutOfLimit,
    // the buffer is shorter than the file that goes into it
    Room,
    // the last year of a slope is outside its range
    Until,
    // a borrowing rate is below the lending rate of its year
    Lists,
    // a search knows no such number of parts, or not for so many instruments
    Parts,
}

impl From<Refusal> for u8 {
    ghost from_gives = { λ refusal number. number ≡ number_of refusal };

    fn from(refusal: Refusal) -> u8 {
        match refusal {
            Refusal::FileLength => 1,
            Refusal::Records => 2,
            Refusal::Head => 3,
            Refusal::Order => 4,
            Refusal::Size => 5,
            Refusal::Amount => 6,
            Refusal::Rollover => 7,
            Refusal::Rate => 8,
            Refusal::Allocation => 9,
            Refusal::PatternNumber => 10,
            Refusal::OutOfLimit => 11,
            Refusal::Room => 12,
            Refusal::Until => 13,
            Refusal::Lists => 14,
            Refusal::Parts => 15,
        }
    }
}
