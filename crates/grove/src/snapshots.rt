// Snapshots that the program makes and looks at, over any store.
use block::BlockStore;
use ink::{Channels, Dot};
use kinds::{Dots, LayerRecords};
use root::{Layer, Part, Root};
use std::fmt;
use tree::{CellKind, OneCell};

// The dots that the program paints are those of the lowest layer.
const PAINTED: Part = Part::Dots(Layer { number: 0 });

// What is read of a snapshot: alpha of its dots 149 and 165, and the opacity of its layer 3, where it has one.
#[derive(Clone, Copy, Debug, PartialEq, Eq)]
pub struct Seen {
    first: u8,
    second: u8,
    opacity: Option<u8>,
}

impl fmt::Display for Seen {
    fn fmt<W: fmt::Write>(&self, f: &mut fmt::Formatter<W>) -> fmt::Result {
        let first = self.first;
        let second = self.second;
        match self.opacity {
            Some(opacity) => write!(f, "{first}, {second}, {opacity}"),
            None => write!(f, "{first}, {second}, none"),
        }
    }
}

fn alpha<S: BlockStore>(store: &S, root: Root, index: u32) -> u8 {
    let dots = root.tree(store, PAINTED);
    Channels::from(dots.read::<S, Dots>(store, index)).alpha
}

fn opacity<S: BlockStore>(store: &S, root: Root, index: u32) -> Option<u8> {
    let records = root.tree(store, Part::Records);
    records.read::<S, LayerRecords>(store, index)
}

pub fn see<S: BlockStore>(store: &S, root: Root) -> Seen {
    Seen {
        first: alpha(store, root, 149),
        second: alpha(store, root, 165),
        opacity: opacity(store, root, 3),
    }
}

// A blank sheet, or none where no block is left.
pub fn blank<S: BlockStore>(store: &mut S) -> Option<Root> {
    Root::blank(store).ok()
}

fn edit<S: BlockStore>(
    store: &mut S,
    root: Option<Root>,
    part: Part,
    plan: OneCell,
) -> Option<Root> {
    root?.edit(store, part, &plan).ok().flatten()
}

// The snapshot with a dot painted black, or none where the blocks do not suffice.
pub fn paint<S: BlockStore>(store: &mut S, root: Option<Root>, index: u32) -> Option<Root> {
    let word = Dots::pack(Dot::black());
    edit(store, root, PAINTED, OneCell { index, word })
}

// The snapshot with a record for a layer.
pub fn record<S: BlockStore>(
    store: &mut S,
    root: Option<Root>,
    index: u32,
    opacity: u8,
) -> Option<Root> {
    let word = LayerRecords::pack(Some(opacity));
    edit(store, root, Part::Records, OneCell { index, word })
}

pub fn release<S: BlockStore>(store: &mut S, root: Option<Root>) {
    if let Some(root) = root {
        root.release(store);
    }
}
