// What a walk does at a cell.
ghost use Rattle.std.specs.Prelude.{◌≡◌, ℕ};

// Something that is shown cells, one by one. A blank cell must leave it as it is: by that law alone a walk passes over blank stretches.
pub trait Visitor {
    // the visitor after it was shown the word of the cell at an index
    ghost step: { ℕ → ℕ → Self → Self };

    ghost blank: { (i : ℕ) (v : Self) → step i 0 v ≡ v };

    fn visit(&mut self, index: u32, word: u32)
        ensures { self.new ≡ step index word self.old };
}
