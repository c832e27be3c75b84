// The one list of calls that is played on every store.
use crate::calls::{Block, Call};

// The blocks of the first five takes.
const A: Block = Block::Taken(0);

const B: Block = Block::Taken(1);

const C: Block = Block::Taken(2);

const D: Block = Block::Taken(3);

const E: Block = Block::Taken(4);

pub const STORY: [Call; 36] = [
    Call::Size,
    Call::Left,
    Call::Take,
    Call::Take,
    Call::Take,
    Call::Take,
    Call::Left,
    Call::Put(A, 0, 7),
    Call::Put(A, 15, 4294967295),
    Call::Get(A, 0),
    Call::Get(A, 15),
    Call::Get(B, 0),
    Call::Get(A, 16),
    Call::Put(Block::Numbered(128), 16, 1),
    Call::Keep(B),
    Call::Holders(B),
    Call::Release(B),
    Call::Holders(B),
    Call::Release(A),
    Call::Release(C),
    Call::Get(A, 0),
    Call::Release(A),
    Call::Left,
    Call::Take,
    Call::Get(E, 0),
    Call::Take,
    Call::Take,
    Call::Left,
    Call::KeepOften(D, 70000),
    Call::Holders(D),
    Call::TakeRest,
    Call::Take,
    Call::Left,
    Call::Release(B),
    Call::Left,
    Call::Take,
];
