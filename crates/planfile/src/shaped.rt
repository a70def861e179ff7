// A shape that check 3 takes, with the sizes of its records.
#![tactic(auto)]

ghost use Rattle.std.specs.Prelude.{◌≡◌};
ghost use Rattle.planfile.specs.Reading.{InRange};

use crate::Kind;
use plan::Shape;
use refusal::Refusal;

// A shape whose numbers are in their ranges.
#[derive(Clone, Copy)]
pub struct Shaped {
    pub shape: Shape,
    ghost in_range: { InRange shape },
}

impl Shaped {
    ghost use Rattle.std.specs.Prelude.{IfOk};
    ghost use Rattle.plan.specs.Refusal.{check, shape_ok};
    ghost use Rattle.refusal.specs.Number.{refusal_in};
    ghost use Rattle.planfile.specs.Kinds.{size_of};
    ghost use Rattle.planfile.specs.Groups.{groups_of, total};

    // Check 3, of the numbers alone.
    pub fn of(shape: Shape) -> Result<Shaped, Refusal>
        ensures is { refusal_in result ≡ check (shape_ok shape) 3 0 }
        ensures kept { IfOk result (λ shaped. shaped.shape ≡ shape) }
    {
        shape.check()?;
        Ok(Shaped { shape })
    }

    // How many records a file of this shape has.
    pub fn count(&self) -> usize
        ensures { result ≡ total (groups_of self.now.shape) }
    {
        crate::groups_of(self.shape)
            .iter()
            .map(|group| group.count)
            .sum()
    }

    // The bytes in the body of a kind, by its number; 0 where the number is no kind's.
    #[tactic(auto, unfolding(crate::specs::Kinds::size_of, whole::specs::Entry::nth))]
    pub fn size_of(&self, number: usize) -> usize
        ensures { result ≡ size_of self.now.shape number }
    {
        let shape = self.shape;
        match Kind::of(number) {
            None => 0,
            Some(Kind::Head) => 4,
            Some(Kind::Instrument) => 8 * shape.years,
            Some(Kind::Outflows) => 8 * shape.years,
            Some(Kind::Rollover) => 4 * shape.terms,
            Some(Kind::Rates) => 4 * (shape.years - 1),
            Some(Kind::Allocation) => 4 * shape.instruments,
            Some(Kind::Opening) => 8 * shape.years,
            Some(Kind::Slope) => 9,
            Some(Kind::Cost) => 8 * shape.instruments,
        }
    }
}
