// What a kind of cell is.
ghost use Rattle.std.specs.Prelude.{◌≡◌, ℕ, ◌≤◌};

// A kind of cell: how deep its trees are, which of its cells is blank, and how a cell packs into a 32-bit word.
pub trait CellKind {
    type Cell;

    // a tree of this kind has a cell at each index below 16 ^ depth
    ghost depth: { ℕ };

    ghost shallow: { depth ≤ 4 };

    // what a cell says
    ghost Value: { Type 0 };

    ghost value: { Self.Cell → Value };

    // the cell of an index where nothing was ever put
    ghost blank: { Value };

    ghost packed: { Value → ℕ };

    ghost unpacked: { ℕ → Value };

    // the values that a cell can have
    ghost Fits: { Value → Type 0 };

    // a blank cell packs to 0
    ghost bare: { packed blank ≡ 0 };

    // unpacking a packed cell gives it back
    ghost back: { (v : Value) → Fits v → unpacked (packed v) ≡ v };

    fn depth() -> u8
        ensures { result ≡ depth };

    fn blank() -> Self::Cell
        ensures { value result ≡ blank };

    fn pack(cell: Self::Cell) -> u32
        ensures answer { result ≡ packed (value cell) }
        ensures fits { Fits (value cell) };

    fn unpack(word: u32) -> Self::Cell
        ensures { value result ≡ unpacked word };
}
