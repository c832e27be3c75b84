// Points, rectangles and sizes.

// A column and a row, counted from 0 at the top left; it need not lie on the sheet. It is a pair, as
// the points of the rules are.
pub type Point = (u16, u16);

// A rectangle, by its corners at the top left and the bottom right, both included.
pub type Corners = (Point, Point);

// The width and the height of a sheet.
#[derive(Clone, Copy, PartialEq, Eq, Debug)]
pub struct Size {
    pub width: u16,
    pub height: u16,
}
