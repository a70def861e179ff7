// Numbers of 1, 2, 4 and 8 bytes in a slice, the lowest byte first: unsigned, and signed in two's complement.
#![tactic(auto)]

ghost use Rattle.std.specs.Prelude.{◌≡◌, refl, ℕ, ◌+◌, ◌^◌, ◌≤◌, ◌<◌, length};
ghost use Rattle.little_endian.specs.LittleEndian.{le_at, stored};
ghost use Rattle.little_endian.specs.TwosComplement.{signed_of, unsigned_of};
ghost use Rattle.little_endian.specs.Numbers.{few_1, few_2, few_4, few_8, signed_again};

// A number that stands in a slice in so many bytes.
// kept, put, of put: std's methods of the three widths have no trait that one function could go over, and no impl may be a macro's (a rule
// of the project)
// kept, at, of at: so it is with the two signed types
// kept, parameters at: a slice from the place on in their place is no plainer: each caller would cut it
// kept, an array or a slice with at beside it: the same
pub trait Number: Copy {
    ghost SIZE: { ℕ };

    // how many bytes it has
    const SIZE: usize;

    // the number that these bits are, and the bits of a number
    ghost number_of: { ℕ → Self };

    ghost bits_of: { Self → ℕ };

    // The number whose bytes stand from place `at` of s on.
    fn at(s: &[u8], at: usize) -> Self
        requires { at + SIZE ≤ length s.now }
        ensures { result ≡ number_of (le_at SIZE at s.now) };

    // Stores the bytes of the number from place `at` of b on.
    fn put(self, b: &mut [u8], at: usize)
        requires { at + SIZE ≤ length b.old }
        ensures { b.new ≡ stored SIZE b.old at (bits_of self) };

    // It has at most eight bytes, and what is read is written again.
    ghost few: { SIZE ≤ 8 };

    ghost again: { (x : ℕ) → x < 256 ^ SIZE → bits_of (number_of x) ≡ x };
}

impl Number for u8 {
    ghost SIZE = { 1 };

    const SIZE: usize = 1;

    ghost number_of = { λ x. x };

    ghost bits_of = { λ x. x };

    fn at(s: &[u8], at: usize) -> u8 {
        s[at]
    }

    fn put(self, b: &mut [u8], at: usize) {
        b[at] = self;
    }

    ghost few = { few_1 };

    ghost again = { λ x h. refl };
}

impl Number for u16 {
    ghost SIZE = { 2 };

    const SIZE: usize = 2;

    ghost number_of = { λ x. x };

    ghost bits_of = { λ x. x };

    fn at(s: &[u8], at: usize) -> u16 {
        u16::from_le_bytes([s[at], s[at + 1]])
    }

    fn put(self, b: &mut [u8], at: usize) {
        b[at..at + 2].copy_from_slice(&self.to_le_bytes());
    }

    ghost few = { few_2 };

    ghost again = { λ x h. refl };
}

impl Number for u32 {
    ghost SIZE = { 4 };

    const SIZE: usize = 4;

    ghost number_of = { λ x. x };

    ghost bits_of = { λ x. x };

    fn at(s: &[u8], at: usize) -> u32 {
        u32::from_le_bytes([s[at], s[at + 1], s[at + 2], s[at + 3]])
    }

    fn put(self, b: &mut [u8], at: usize) {
        b[at..at + 4].copy_from_slice(&self.to_le_bytes());
    }

    ghost few = { few_4 };

    ghost again = { λ x h. refl };
}

impl Number for u64 {
    ghost SIZE = { 8 };

    const SIZE: usize = 8;

    ghost number_of = { λ x. x };

    ghost bits_of = { λ x. x };

    fn at(s: &[u8], at: usize) -> u64 {
        u64::from_le_bytes([
            s[at],
            s[at + 1],
            s[at + 2],
            s[at + 3],
            s[at + 4],
            s[at + 5],
            s[at + 6],
            s[at + 7],
        ])
    }

    fn put(self, b: &mut [u8], at: usize) {
        b[at..at + 8].copy_from_slice(&self.to_le_bytes());
    }

    ghost few = { few_8 };

    ghost again = { λ x h. refl };
}

impl Number for i32 {
    ghost SIZE = { 4 };

    const SIZE: usize = 4;

    ghost number_of = { signed_of 4 };

    ghost bits_of = { unsigned_of 4 };

    fn at(s: &[u8], at: usize) -> i32 {
        u32::at(s, at).cast_signed()
    }

    fn put(self, b: &mut [u8], at: usize) {
        u32::put(self.cast_unsigned(), b, at);
    }

    ghost few = { few_4 };

    ghost again = { signed_again 4 };
}

impl Number for i64 {
    ghost SIZE = { 8 };

    const SIZE: usize = 8;

    ghost number_of = { signed_of 8 };

    ghost bits_of = { unsigned_of 8 };

    fn at(s: &[u8], at: usize) -> i64 {
        u64::at(s, at).cast_signed()
    }

    fn put(self, b: &mut [u8], at: usize) {
        u64::put(self.cast_unsigned(), b, at);
    }

    ghost few = { few_8 };

    ghost again = { signed_again 8 };
}
