// The trees of a sheet.
ghost use Rattle.std.specs.Prelude.{◌≡◌, map};
ghost use Rattle.std.specs.List.{range_with_len};
ghost use Rattle.rules.specs.Cells.{depth};
ghost use Rattle.root.specs.Parts.{slot};

use crate::layers::Layer;

// One of the ten trees of a sheet.
#[derive(Clone, Copy, Debug, PartialEq, Eq)]
pub enum Part {
    // the dots of a layer
    Dots(Layer),
    Strips,
    // the layers' records
    Records,
}

impl Part {
    // All ten, in the order of their slots.
    pub(crate) fn all() -> [Part; 10]
        ensures { map slot result ≡ range_with_len 0 10 }
    {
        [
            Part::Dots(Layer { number: 0 }),
            Part::Dots(Layer { number: 1 }),
            Part::Dots(Layer { number: 2 }),
            Part::Dots(Layer { number: 3 }),
            Part::Dots(Layer { number: 4 }),
            Part::Dots(Layer { number: 5 }),
            Part::Dots(Layer { number: 6 }),
            Part::Dots(Layer { number: 7 }),
            Part::Strips,
            Part::Records,
        ]
    }

    // Which word of a root block leads to the tree.
    pub fn slot(self) -> u32
        ensures { result ≡ slot self }
    {
        match self {
            Part::Dots(layer) => u32::from(layer.number),
            Part::Strips => 8,
            Part::Records => 9,
        }
    }

    // How deep the tree is.
    pub(crate) fn depth(self) -> u8
        ensures { result ≡ depth (slot self) }
    {
        match self {
            Part::Dots(_) => 4,
            Part::Strips => 3,
            Part::Records => 1,
        }
    }
}
