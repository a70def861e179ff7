// Records taken off a file from its front.
#![tactic(auto)]

ghost use Rattle.std.specs.Prelude.{◌≡◌};
ghost use Rattle.records.specs.Cursor.{next_at};

use little_endian::Number;

// A record that stands in a file: its kind, and the start and the end of its body, where the next place is.
#[derive(Clone, Copy)]
pub struct Record {
    // kept: the number as it stands in the file, whether or not it is a kind's; planfile's Kind is what it may be
    pub kind: usize,
    pub start: usize,
    pub end: usize,
}

// The record at a place; or how many bytes are left there, which says why none stands: 0 at the end of the file, 1 to 3 where the front of
// a record is cut off, more where its body is.
// kept: the places that a record names are those of the whole file, which a slice from this place on would lose
pub fn next_at(file: &[u8], at: usize) -> Result<Record, usize>
    ensures { result ≡ next_at file.now at }
{
    let left = file.len().saturating_sub(at);
    if left < 4 {
        return Err(left);
    }
    let size = usize::from(u16::at(file, at));
    if left - 4 < size {
        return Err(left);
    }
    let kind = usize::from(u16::at(file, at + 2));
    let start = at + 4;
    Ok(Record {
        kind,
        start,
        end: start + size,
    })
}
