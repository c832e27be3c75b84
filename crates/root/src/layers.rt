// The layers of a sheet.
ghost use Rattle.std.specs.Prelude.{◌<◌};

// A layer of a sheet, by its number.
#[derive(Clone, Copy, Debug, PartialEq, Eq)]
pub struct Layer {
    pub number: u8,
    ghost eight: { number < 8 },
}
