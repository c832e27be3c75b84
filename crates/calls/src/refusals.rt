// Why a canvas refuses a call, by fixed numbers.
ghost use Rattle.std.specs.Prelude.{◌≡◌};
ghost use Rattle.calls.specs.Refusals.{number_of};
ghost use Rattle.calls.specs.declared.refusals.Refusal.TheVariants.{NoBlocks};

// A refused call alters no sheet, no head and no block.
#[derive(Clone, Copy, PartialEq, Eq, Debug)]
pub enum Refusal {
    // there is no sheet yet
    NotStarted,
    // there is one already
    AlreadyStarted,
    // a width or a height that is not 1 to 256
    BadSize,
    // the store that is to be used has a block out
    StoreInUse,
    // the number for a new snapshot is 0, above 63 or live
    BadNumber,
    // no live snapshot has the number
    NotLive,
    // the layer is above 7 or has no record
    BadLayer,
    // a point is outside the sheet
    BadPoints,
    // no cell would change
    NoChange,
    // the blocks do not suffice: what the store answered
    NoBlocks(block::Refusal),
    // there is no snapshot to go to, or it cannot be forgotten
    Nowhere,
}

impl Refusal {
    // The number by which it is known.
    pub fn number(self) -> u8
        ensures value { result ≡ number_of self }
    {
        match self {
            Refusal::NotStarted => 10,
            Refusal::AlreadyStarted => 11,
            Refusal::BadSize => 12,
            Refusal::StoreInUse => 13,
            Refusal::BadNumber => 14,
            Refusal::NotLive => 15,
            Refusal::BadLayer => 16,
            Refusal::BadPoints => 17,
            Refusal::NoChange => 19,
            Refusal::NoBlocks(_) => 20,
            Refusal::Nowhere => 21,
        }
    }
}

impl From<block::Refusal> for Refusal {
    ghost from_gives = { λ e r. r ≡ NoBlocks e };

    fn from(refusal: block::Refusal) -> Refusal {
        Refusal::NoBlocks(refusal)
    }
}
