// Which cells a walk is about.
ghost use Rattle.std.specs.Prelude.{◌≡◌, Bool, false, ℕ};
ghost use Rattle.walk.specs.Walks.{Clear};

use tree::Stretch;

// A set of indices.
pub trait Region {
    ghost has: { Self → ℕ → Bool };

    fn has(&self, index: u32) -> bool
        ensures { result ≡ has self.now index };

    // Whether an index of the stretch may be in the region: where it answers no, none is.
    fn meets(&self, stretch: Stretch) -> bool
        ensures { result ≡ false → Clear (has self.now) stretch.order stretch.at };
}
