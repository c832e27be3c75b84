// What the benchmark of stores times: takes, gets and puts through the trait, on the store with a map of bits. It is called from C.
#![tactic(auto)]

use block::BlockStore;
use map_store::MapStore;
use scattered::Scattered;

// Takes block after block, at most so many; the answer is the sum of their numbers.
fn take_some<S: BlockStore>(store: &mut S, most: u32) -> u32 {
    let mut sum = 0u32;
    for _ in 0..most {
        let Ok(b) = store.take() else {
            break;
        };
        sum = sum.wrapping_add(b);
    }
    sum
}

fn get_some<S: BlockStore>(store: &S, count: u32) -> u32 {
    (Scattered { last: 1 })
        .take(count as usize)
        .filter_map(|x| store.get(x >> 18, (x >> 8) % 16).ok())
        .fold(0u32, |sum, word| sum.wrapping_add(word))
}

fn put_some<S: BlockStore>(store: &mut S, count: u32) {
    for x in (Scattered { last: 7 }).take(count as usize) {
        let _ = store.put(x >> 18, (x >> 8) % 16, x);
    }
}

// Makes a store and takes all its blocks, so many times over.
#[unsafe(no_mangle)]
pub extern "C" fn store_takes(words: &mut [u32], cells: &mut [u16], rounds: u32) -> u32 {
    let mut sum = 0u32;
    for _ in 0..rounds {
        let mut store = MapStore::new(words, cells);
        sum = sum.wrapping_add(take_some(&mut store, 16384));
    }
    sum
}

// Takes all blocks, and reads words without a pattern.
#[unsafe(no_mangle)]
pub extern "C" fn store_gets(words: &mut [u32], cells: &mut [u16], count: u32) -> u32 {
    let mut store = MapStore::new(words, cells);
    let taken = take_some(&mut store, 16384);
    taken.wrapping_add(get_some(&store, count))
}

// Takes all blocks, writes words without a pattern, and reads some of them.
#[unsafe(no_mangle)]
pub extern "C" fn store_puts(words: &mut [u32], cells: &mut [u16], count: u32) -> u32 {
    let mut store = MapStore::new(words, cells);
    let taken = take_some(&mut store, 16384);
    put_some(&mut store, count);
    taken.wrapping_add(get_some(&store, 1000))
}
