// The format of a plan file: which records it has, in which order, and how long they are.
#![tactic(auto)]

ghost use Rattle.std.specs.Prelude.{◌≡◌, MatchOption};
ghost use Rattle.planfile.specs.Kinds.{role_of, kind_number, role_shown};
ghost use Rattle.planfile.specs.Groups.{groups_of, spot_at, groups_shown, spot_shown};

use plan::Shape;

mod shaped;

pub use shaped::Shaped;

// What stands in a record. The numbers of the kinds are 1 to 9, in this order.
#[derive(Clone, Copy, PartialEq, Eq)]
pub enum Kind {
    Head,
    Instrument,
    Outflows,
    Rollover,
    Rates,
    Allocation,
    Opening,
    Slope,
    Cost,
}

impl Kind {
    // The kind with this number; none where it is no kind's.
    pub fn of(number: usize) -> Option<Kind>
        ensures { MatchOption result (role_of number ≡ 0) (λ kind. kind_number kind ≡ number) }
    {
        match number {
            1 => Some(Kind::Head),
            2 => Some(Kind::Instrument),
            3 => Some(Kind::Outflows),
            4 => Some(Kind::Rollover),
            5 => Some(Kind::Rates),
            6 => Some(Kind::Allocation),
            7 => Some(Kind::Opening),
            8 => Some(Kind::Slope),
            9 => Some(Kind::Cost),
            _ => None,
        }
    }
}

impl From<Kind> for u16 {
    ghost from_gives = { λ kind number. number ≡ kind_number kind };

    fn from(kind: Kind) -> u16 {
        // kept: an enum gives its number by `as` alone, and a match of nine arms is no plainer
        kind as u16 + 1
    }
}

// Where a record stands: a pattern's rates and a slope have one role, each other kind has its own.
#[derive(Clone, Copy, PartialEq, Eq)]
pub enum Role {
    Head,
    Instrument,
    Outflows,
    Opening,
    Cost,
    Rollover,
    Pattern,
    Allocation,
}

// So many records of one role, one after the other.
#[derive(Clone, Copy)]
pub struct Group {
    pub role: Role,
    pub count: usize,
}

impl Group {
    fn of(role: Role, count: usize) -> Group
        ensures { result ≡ record { role = role; count = count } }
    {
        Group { role, count }
    }
}

// A record's role, and which of its group it is, counted from 0.
#[derive(Clone, Copy)]
pub struct Spot {
    pub role: Role,
    pub index: usize,
}

// How many groups of records a file has.
const GROUPS: usize = 8;

// The role of a kind, by its number; none where the number is no kind's.
#[tactic(auto, unfolding(crate::specs::Kinds::role_of, whole::specs::Entry::nth))]
pub fn role_of(number: usize) -> Option<Role>
    ensures { role_shown result ≡ role_of number }
{
    match Kind::of(number)? {
        Kind::Head => Some(Role::Head),
        Kind::Instrument => Some(Role::Instrument),
        Kind::Outflows => Some(Role::Outflows),
        Kind::Rollover => Some(Role::Rollover),
        Kind::Rates => Some(Role::Pattern),
        Kind::Allocation => Some(Role::Allocation),
        Kind::Opening => Some(Role::Opening),
        Kind::Slope => Some(Role::Pattern),
        Kind::Cost => Some(Role::Cost),
    }
}

// The records of a file of this shape, group after group.
#[tactic(auto, unfolding(crate::specs::Groups::groups_of))]
pub fn groups_of(shape: Shape) -> [Group; GROUPS]
    ensures { groups_shown result ≡ groups_of shape }
{
    [
        Group::of(Role::Head, 1),
        Group::of(Role::Instrument, shape.instruments),
        Group::of(Role::Outflows, 1),
        Group::of(Role::Opening, usize::from(shape.opened)),
        Group::of(Role::Cost, usize::from(shape.costed)),
        Group::of(Role::Rollover, 1),
        Group::of(Role::Pattern, shape.patterns),
        Group::of(Role::Allocation, 1),
    ]
}

// The spot of record t of a file of this shape; none past the last.
pub fn spot_at(shape: Shape, t: usize) -> Option<Spot>
    ensures { spot_shown result ≡ spot_at (groups_of shape) t }
{
    let mut index = t;
    for group in groups_of(shape) {
        if index < group.count {
            return Some(Spot {
                role: group.role,
                index,
            });
        }
        index -= group.count;
    }
    None
}
