// The four digits of a number, the first topmost.
ghost use Rattle.std.specs.Prelude.{◌≡◌, ◌<◌};
ghost use Rattle.zones.specs.Digits.{raised};
ghost use Rattle.zones.specs.Predecessors.{fields};

/// The four digits, the first topmost.
pub fn digits(number: u16) -> [u8; 4]
    ensures { result ≡ fields number }
{
    [number / 4096, number / 256, number / 16, number].map(|front| (front % 16) as u8)
}

// The number with this digit at the position, and 0 at each later one.
pub(crate) fn raise(number: u16, position: usize, digit: u8) -> u16
    requires { digit < 16 }
    ensures { result ≡ raised number position digit }
{
    let digit = u16::from(digit);
    // With the position's power of 16 in their place, 16 times the first one would need more than
    // 16 bits.
    match position {
        0 => digit * 4096,
        1 => number / 4096 * 4096 + digit * 256,
        2 => number / 256 * 256 + digit * 16,
        _ => number / 16 * 16 + digit,
    }
}
