// The calls, with their arguments.

use crate::shapes::{Point, Size};

#[derive(Clone, Copy, PartialEq, Eq, Debug)]
pub enum Call {
    // a blank sheet of that size
    Start(Size),
    // writes a layer's record; the snapshot made gets the number
    Layer {
        number: u8,
        layer: u8,
        opacity: u8,
    },
    // sets or clears the protection of the rectangle of two opposite corners, in any order
    Frisket {
        number: u8,
        protects: bool,
        from: Point,
        to: Point,
    },
    // the head becomes its parent, its child made last, or a named snapshot
    Undo,
    Redo,
    Go(u8),
    // ends a snapshot
    Forget(u8),
    // questions
    Size,
    Head,
    Left,
    Parent(u8),
    Dot {
        number: u8,
        layer: u8,
        point: Point,
    },
    Flat {
        number: u8,
        point: Point,
    },
    Protected {
        number: u8,
        point: Point,
    },
    Opacity {
        number: u8,
        layer: u8,
    },
    Inked(u8),
    Bounds {
        number: u8,
        layer: u8,
    },
}
