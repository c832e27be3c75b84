// One channel of a dot: products of bytes, divided by 255.
ghost use Rattle.std.specs.Prelude.{◌≡◌, ◌*◌, ◌≤◌};
ghost use Rattle.rules.specs.Dots.{rounded};

// v / 255, to the nearest.
fn round(v: u16) -> u16
    requires { v ≤ 65025 }
    ensures value { result ≡ rounded v }
{
    (v + 127) / 255
}

// The product of two bytes never passes 65,025, so sixteen bits hold it, and what is rounded is no more than each byte.
pub fn scale(value: u8, by: u8) -> u8
    ensures value { result ≡ rounded (value * by) }
    ensures within { result ≤ by }
{
    round(u16::from(value) * u16::from(by)) as u8
}
