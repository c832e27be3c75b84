// The calls of a block store, each by what it answers and what it leaves.
ghost use Rattle.std.specs.Prelude.{◌≡◌, is_ok, if◌then◌else◌};
ghost use Rattle.block.specs.Blocks.{Blocks, Frame, Whole, free_count};
ghost use Rattle.block.specs.Calls.{Takes, get_answer, holders_answer, keep_answer, kept, put_answer, release_answer, released, written};

use crate::refusals::Refusal;

// A store of equal blocks. Each number below its size is free, or out with 1 to 65,535 holders and sixteen 32-bit words.
//
// No call has a premise: what cannot be done is refused, and a refused call alters no block.
// Which free number `take` picks is each store's own affair; all else is the same for every store.
pub trait BlockStore {
    // the blocks that a store holds
    ghost blocks: { Self → Blocks };

    // what holds of the blocks of every store
    ghost whole: { (s : Self) → Whole (blocks s) };

    // what no call alters: the memory that a store was lent, past its blocks, and where that memory is
    ghost frame: { Self → Frame };

    // Picks a free number: that block is then out, with one holder and sixteen zeros.
    fn take(&mut self) -> Result<u32, Refusal>
        ensures after { Takes (blocks self.old) result (blocks self.new) }
        ensures stays { frame self.new ≡ frame self.old };

    // Adds a holder.
    fn keep(&mut self, b: u32) -> Result<(), Refusal>
        ensures answer { result ≡ keep_answer (blocks self.old) b }
        ensures after { blocks self.new ≡ (if is_ok result then kept (blocks self.old) b else blocks self.old) }
        ensures stays { frame self.new ≡ frame self.old };

    // Removes a holder; with none left the block is free again.
    fn release(&mut self, b: u32) -> Result<(), Refusal>
        ensures answer { result ≡ release_answer (blocks self.old) b }
        ensures after { blocks self.new ≡ (if is_ok result then released (blocks self.old) b else blocks self.old) }
        ensures stays { frame self.new ≡ frame self.old };

    // Reads word i.
    fn get(&self, b: u32, i: u32) -> Result<u32, Refusal>
        ensures { result ≡ get_answer (blocks self.now) b i };

    // Writes word i.
    fn put(&mut self, b: u32, i: u32, w: u32) -> Result<(), Refusal>
        ensures answer { result ≡ put_answer (blocks self.old) b i }
        ensures after { blocks self.new ≡ (if is_ok result then written (blocks self.old) b i w else blocks self.old) }
        ensures stays { frame self.new ≡ frame self.old };

    // Counts the holders.
    fn holders(&self, b: u32) -> Result<u16, Refusal>
        ensures { result ≡ holders_answer (blocks self.now) b };

    // How many numbers are free.
    fn left(&self) -> u32
        ensures { result ≡ free_count (blocks self.now) };

    // How many numbers there are.
    fn size(&self) -> u32
        ensures { result ≡ (blocks self.now).size };
}
