// How many blocks are out, and what keeps snapshots apart: theorems on plain data. Each function stands for the statements in its contract.
#![tactic(auto)]

ghost use Rattle.count.specs.Laws.{AllFree, AllReached, BlocksCounted, CountTheorem, NeedCounted, NeverTooMany, NewBesideOld, OthersStay, RoomTold};

// A balanced store: holders are few, every block is reached, and where nothing is held all are free.
pub fn balance_tells()
    ensures few { NeverTooMany }
    ensures reached { AllReached }
    ensures free { AllFree }
{}

// What one snapshot does to the others: nothing.
pub fn snapshots_apart()
    ensures gone { OthersStay }
    ensures made { NewBesideOld }
{}

// How many blocks an edit needs, how many are out, and when an edit finds what it needs.
pub fn blocks_counted()
    ensures need { NeedCounted }
    ensures shared { BlocksCounted }
    ensures count { CountTheorem }
    ensures room { RoomTold }
{}
