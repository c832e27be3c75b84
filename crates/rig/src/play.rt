// Playing calls on any store.
ghost use Rattle.std.specs.Prelude.{◌≡◌, length, IfOk, vec_len};

use crate::answers::{Answer, Reply, Stop};
use crate::calls::{Block, Call};
use block::{BlockStore, Refusal};
use std::alloc::{AllocError, Global};

// Plays the calls in their order on any store: an answer to each.
pub fn play<S: BlockStore>(
    heap: Global,
    store: &mut S,
    calls: &[Call],
) -> Result<Vec<Answer>, AllocError>
    ensures { IfOk result (λ v. vec_len v ≡ length calls.now) }
{
    let mut picks = Vec::new(heap);
    let mut answers = Vec::new(heap);
    for call in calls {
        let answer = ask(store, &picks, *call);
        if let Ok(Reply::Picked(b)) = answer {
            picks.push(b)?;
        }
        answers.push(answer)?;
    }
    Ok(answers)
}

fn ask<S: BlockStore>(store: &mut S, picks: &[u32], call: Call) -> Answer {
    match call {
        Call::Size => Ok(Reply::Number(store.size())),
        Call::Left => Ok(Reply::Number(store.left())),
        Call::Take => Ok(Reply::Picked(store.take()?)),
        // no store has more than 16,384 blocks, so one take more is refused
        Call::TakeRest => often(16385, || store.take()),
        Call::Keep(b) => done(store.keep(number(picks, b))),
        Call::KeepOften(b, times) => {
            let b = number(picks, b);
            often(times, || store.keep(b))
        }
        Call::Release(b) => done(store.release(number(picks, b))),
        Call::Get(b, i) => Ok(Reply::Number(store.get(number(picks, b), i)?)),
        Call::Put(b, i, w) => done(store.put(number(picks, b), i, w)),
        Call::Holders(b) => Ok(Reply::Number(u32::from(store.holders(number(picks, b))?))),
    }
}

// The number of a block; a take that never came names none of any store.
fn number(picks: &[u32], b: Block) -> u32 {
    match b {
        Block::Taken(nth) => picks.get(nth).copied().unwrap_or(u32::MAX),
        Block::Numbered(b) => b,
    }
}

fn done(r: Result<(), Refusal>) -> Answer {
    r?;
    Ok(Reply::Done)
}

// One call so many times, or until the store refuses.
fn often<T: Drop, F: FnMut() -> Result<T, Refusal>>(times: u32, mut call: F) -> Answer
    requires { F.IsAlwaysCallable call }
{
    for done in 0..times {
        call().map_err(|refusal| Stop::After(done, refusal))?;
    }
    Ok(Reply::Number(times))
}
