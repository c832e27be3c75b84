// Dots: pixels whose colours are already multiplied by their alpha.
ghost use Rattle.std.specs.Prelude.{◌≤◌};

mod calls;

// Four numbers as they are given, which need not be those of a dot.
#[derive(Clone, Copy, Debug, PartialEq, Eq)]
pub struct Channels {
    pub red: u8,
    pub green: u8,
    pub blue: u8,
    pub alpha: u8,
}

// A dot, which cannot hold a colour above its alpha.
#[derive(Clone, Copy, Debug, PartialEq, Eq)]
pub struct Dot {
    red: u8,
    green: u8,
    blue: u8,
    alpha: u8,
    ghost red_covered: { red ≤ alpha },
    ghost green_covered: { green ≤ alpha },
    ghost blue_covered: { blue ≤ alpha },
    ghost alpha_byte: { alpha ≤ 255 },
}
