// Plays one list of calls on each of the three stores, and tells what they answered.
#![tactic(auto)]

mod answers;
mod calls;
mod play;
mod story;

use answers::{Answer, Reply};
use anyhow::anyhow;
use calls::Call;
use chain_store::ChainStore;
use map_store::MapStore;
use play::play;
use ring_store::RingStore;
use story::STORY;

// One line for a call: what all three answered, and which number each picked.
fn report(rt: &HostRuntime, call: Call, answers: [Answer; 3]) -> anyhow::Result<()> {
    let asked = call.to_string(rt.alloc())?;
    let told = match answers[0] {
        Ok(reply) => reply.to_string(rt.alloc())?,
        Err(stop) => stop.to_string(rt.alloc())?,
    };
    if answers.iter().any(|answer| *answer != answers[0]) {
        return Err(anyhow!("the stores do not answer alike"));
    }
    if let [
        Ok(Reply::Picked(x)),
        Ok(Reply::Picked(y)),
        Ok(Reply::Picked(z)),
    ] = answers
    {
        println!(rt; "{asked:<28}{told:<48}{x:>5}{y:>7}{z:>6}")?;
    } else {
        println!(rt; "{asked:<28}{told}")?;
    }
    Ok(())
}

fn run(rt: &HostRuntime) -> anyhow::Result<()> {
    let mut words = [0; 2048];
    let mut cells = [0; 128];
    let map = play(
        rt.alloc(),
        &mut MapStore::new(&mut words, &mut cells),
        &STORY,
    )?;
    let chain = play(
        rt.alloc(),
        &mut ChainStore::new(&mut words, &mut cells),
        &STORY,
    )?;
    let ring = play(rt.alloc(), &mut RingStore::new(), &STORY)?;
    println!(rt;
        "One list of calls on three block stores of 128 blocks. A block goes by a letter, in the order of the takes."
    )?;
    println!(rt;
        "call                        answer                                            map  chain  ring"
    )?;
    for (((call, a), b), c) in STORY.iter().zip(&map).zip(&chain).zip(&ring) {
        report(rt, *call, [*a, *b, *c])?;
    }
    println!(rt; "All answers agree; only the numbers that take picked differ.")?;
    Ok(())
}

fn main(rt: HostRuntime) -> anyhow::Result<()> {
    run(&rt)
}
