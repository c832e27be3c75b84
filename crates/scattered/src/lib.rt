// Numbers without a pattern, the same on every run, for what is timed.
#![tactic(auto)]

ghost use Rattle.std.specs.Prelude.{◌≡◌, ◌+◌, ◌*◌, ◌%◌, ◌^◌, Some};

// A row of numbers without an end, each made from the one before it.
#[derive(Clone, Copy, Debug, PartialEq, Eq)]
pub struct Scattered {
    pub last: u32,
}

impl Iterator for Scattered {
    type Item = u32;

    ghost next_gives = { λ s r t. (t.last ≡ (1664525 * s.last + 1013904223) % 2 ^ 32) × (r ≡ Some t.last) };

    fn next(&mut self) -> Option<u32> {
        self.last = self.last.wrapping_mul(1664525).wrapping_add(1013904223);
        Some(self.last)
    }
}
