// Grows a small sheet over each of the three stores, and tells after every step what is out and what is read.
#![tactic(auto)]

mod snapshots;

use block::BlockStore;
use chain_store::ChainStore;
use map_store::MapStore;
use ring_store::RingStore;
use root::Root;
use snapshots::{blank, paint, record, release, see};

// One line: a step, the blocks out and left, and what is read of each snapshot that there is.
fn tell<S: BlockStore>(
    rt: &HostRuntime,
    store: &S,
    step: &str,
    snapshots: [Option<Root>; 4],
) -> anyhow::Result<()> {
    let left = store.left();
    let out = store.size().saturating_sub(left);
    print!(rt; "  {step:<32}{out:>4}{left:>6}   ")?;
    for snapshot in snapshots {
        match snapshot {
            Some(root) => {
                let seen = see(store, root).to_string(rt.alloc())?;
                print!(rt; "{seen:<17}")?;
            }
            None => print!(rt; "{:<17}", "-")?,
        }
    }
    println!(rt; "")?;
    Ok(())
}

// Makes the snapshots A to D, each from the one before, and lets them go again.
fn grow<S: BlockStore>(rt: &HostRuntime, store: &mut S) -> anyhow::Result<()> {
    println!(rt;
        "{:<34}{:>4}{:>6}   {:<17}{:<17}{:<17}{:<17}",
        "  step", "out", "left", "A", "B", "C", "D"
    )?;
    let a = blank(store);
    tell(rt, store, "A: a blank sheet", [a, None, None, None])?;
    let b = paint(store, a, 149);
    tell(rt, store, "B: A, with dot 149 painted", [a, b, None, None])?;
    let c = record(store, b, 3, 200);
    tell(
        rt,
        store,
        "C: B, with a record for layer 3",
        [a, b, c, None],
    )?;
    let d = paint(store, c, 165);
    tell(rt, store, "D: C, with dot 165 painted", [a, b, c, d])?;
    release(store, b);
    tell(rt, store, "B let go", [a, None, c, d])?;
    release(store, c);
    tell(rt, store, "C let go", [a, None, None, d])?;
    release(store, a);
    tell(rt, store, "A let go", [None, None, None, d])?;
    release(store, d);
    tell(rt, store, "D let go", [None, None, None, None])
}

fn run(rt: &HostRuntime) -> anyhow::Result<()> {
    let mut words = [0; 2048];
    let mut cells = [0; 128];
    println!(rt;
        "One small sheet over three stores of 128 blocks. Of each snapshot: alpha of dots 149 and 165, opacity of layer 3."
    )?;
    println!(rt; "the store with a map of bits")?;
    grow(rt, &mut MapStore::new(&mut words, &mut cells))?;
    println!(rt; "the store with a chain")?;
    grow(rt, &mut ChainStore::new(&mut words, &mut cells))?;
    println!(rt; "the store that goes round")?;
    grow(rt, &mut RingStore::new())
}

fn main(rt: HostRuntime) -> anyhow::Result<()> {
    run(&rt)
}
