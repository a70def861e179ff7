// An allocation.

// The share of each instrument, in millionths; what stands past the last instrument plays no part.
#[derive(Clone, Copy)]
pub struct Allocation {
    pub shares: [u32; 16],
}
