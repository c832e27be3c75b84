// A store that is lent is a store, so that whoever works on one can hold it or borrow it.
ghost use Rattle.std.specs.Prelude.{◌∷◌};

use crate::refusals::Refusal;
use crate::stores::BlockStore;

impl<'a, S: BlockStore> BlockStore for &'a mut S {
    ghost blocks = { λ r. S.BlockStore.blocks r.now };

    ghost whole = { λ r. S.BlockStore.whole r.now };

    ghost frame = { λ r. record { names = r.ghost_name ∷ (S.BlockStore.frame r.now).names; words = (S.BlockStore.frame r.now).words; holders = (S.BlockStore.frame r.now).holders } };

    fn take(&mut self) -> Result<u32, Refusal> {
        (**self).take()
    }

    fn keep(&mut self, b: u32) -> Result<(), Refusal> {
        (**self).keep(b)
    }

    fn release(&mut self, b: u32) -> Result<(), Refusal> {
        (**self).release(b)
    }

    fn get(&self, b: u32, i: u32) -> Result<u32, Refusal> {
        (**self).get(b, i)
    }

    fn put(&mut self, b: u32, i: u32, w: u32) -> Result<(), Refusal> {
        (**self).put(b, i, w)
    }

    fn holders(&self, b: u32) -> Result<u16, Refusal> {
        (**self).holders(b)
    }

    fn left(&self) -> u32 {
        (**self).left()
    }

    fn size(&self) -> u32 {
        (**self).size()
    }
}
