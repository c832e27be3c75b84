// Theorems on the meaning of a store: each function stands for the statements in its contract.
ghost use Rattle.block.specs.Laws.{CallsKeepWhole, FreeCounted, NumbersTell, OnlyNamed};

// A refusal is told by its number; no call alters a block that it does not name or pick; each call changes the number of free blocks as its rule says and keeps what holds of every store.
pub fn meaning_stands()
    ensures numbers { NumbersTell }
    ensures named { OnlyNamed }
    ensures counted { FreeCounted }
    ensures whole { CallsKeepWhole }
{}
