// The table, and what is done with it.
ghost use Rattle.std.specs.Prelude.{◌≡◌, ℕ, ◌<◌, ◌≤◌, [], ◌∷◌, ◌++◌, map, length, slice_set, option_map, filter};
ghost use Rattle.table.specs.Tables.{at, but, last_under, moved_up, parent_at};

use crate::orders::Order;
use crate::records::Snapshot;

// Snapshots by their numbers, and the numbers of those that are live in the order in which they were made.
#[derive(Clone, Copy, Debug, PartialEq, Eq)]
pub struct Table {
    snapshots: [Option<Snapshot>; 64],
    order: Order,
    ghost full: { length snapshots ≡ 64 },
    ghost few: { length order.made ≤ 64 },
}

impl Table {
    // A table without snapshots.
    pub fn new() -> Table
        ensures snapshots { (s : ℕ) → at result.snapshots s ≡ None }
        ensures made { result.order.made ≡ [] }
    {
        Table {
            snapshots: [None; 64],
            order: Order::new(),
        }
    }

    // The snapshot with a number, if there is one.
    pub fn get(&self, number: u8) -> Option<Snapshot>
        ensures value { result ≡ at self.now.snapshots number }
    {
        *self.snapshots.get(usize::from(number))?
    }

    // The number of the snapshot that the one with a number stands under.
    fn parent(&self, number: u8) -> Option<u8>
        ensures { result ≡ parent_at self.now.snapshots number }
    {
        self.get(number)?.parent
    }

    // Puts a snapshot that is made now into the place of its number, where there is room for one more.
    // Not by `get_mut`: after that, nothing is known of the array.
    pub fn add(&mut self, number: u8, snapshot: Snapshot)
        ensures snapshots { self.new.snapshots ≡ slice_set self.old.snapshots number (Some snapshot) }
        ensures made { length self.old.order.made < 64 → number < 64 → self.new.order.made ≡ self.old.order.made ++ (number ∷ []) }
    {
        let place = usize::from(number);
        if place < self.snapshots.len() {
            self.snapshots[place] = Some(snapshot);
            self.order.push(number);
        }
    }

    // Ends a snapshot: its place is empty, and those that stood under it stand under its parent.
    pub fn remove(&mut self, number: u8)
        ensures snapshots { number < 64 → self.new.snapshots ≡ slice_set (map (option_map (moved_up number (parent_at self.old.snapshots number))) self.old.snapshots) number None }
        ensures made { number < 64 → self.new.order.made ≡ filter (but number) self.old.order.made }
    {
        let place = usize::from(number);
        if place < self.snapshots.len() {
            let parent = self.parent(number);
            self.move_children_up(number, parent);
            self.snapshots[place] = None;
            self.order.strike(number);
        }
    }

    // Moves those that stand under a snapshot under another.
    fn move_children_up(&mut self, number: u8, parent: Option<u8>)
        ensures snapshots { self.new.snapshots ≡ map (option_map (moved_up number parent)) self.old.snapshots }
        ensures order { self.new.order ≡ self.old.order }
    {
        for place in &mut self.snapshots {
            if let Some(snapshot) = place {
                snapshot.move_up(number, parent);
            }
        }
    }

    // The snapshot that was made last of those that stand under the one with a number.
    pub fn last_child(&self, number: u8) -> Option<u8>
        ensures value { result ≡ last_under self.now.snapshots number self.now.order.made }
    {
        self.order
            .numbers()
            .iter()
            .rev()
            .copied()
            .find(|other| self.parent(*other) == Some(number))
    }
}
