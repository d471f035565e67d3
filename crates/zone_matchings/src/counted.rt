// Items of a slice, counted from 1.
ghost use Rattle.nets.specs.Nets.{numbered};
ghost use Rattle.std.specs.Prelude.{◌≡◌};

/// The item with this number, or `none` of any other number.
#[inline(always)]
pub fn numbered<X: Copy>(items: &[X], number: usize, none: X) -> X
    ensures { result ≡ numbered items.now number none }
{
    number
        .checked_sub(1)
        .and_then(|at| items.get(at))
        .copied()
        .unwrap_or(none)
}
