// One snapshot of the table.
ghost use Rattle.std.specs.Prelude.{◌≡◌};
ghost use Rattle.table.specs.Tables.{moved_up, under};

use root::Root;

// A live snapshot.
#[derive(Clone, Copy, Debug, PartialEq, Eq)]
pub struct Snapshot {
    pub root: Root,
    // the snapshot that it stands under; snapshot 0 has none
    pub parent: Option<u8>,
}

impl Snapshot {
    // Whether it stands under the snapshot with that number.
    pub fn stands_under(self, number: u8) -> bool
        ensures value { result ≡ under number self }
    {
        self.parent == Some(number)
    }

    // Comes to stand under `parent` if it stands under `number`.
    pub fn move_up(&mut self, number: u8, parent: Option<u8>)
        ensures after { self.new ≡ moved_up number parent self.old }
    {
        if self.stands_under(number) {
            self.parent = parent;
        }
    }
}
