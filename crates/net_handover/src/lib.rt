//! A net store of one's own, the whole of it: a line with two stops and one handover between them.
#![tactic(auto)]

ghost use Rattle.nets.specs.Nets.{largest_end};
ghost use Rattle.std.specs.Prelude.{◌≡◌, ◌<◌, ◌≤◌, ◌⊎◌, MatchOption};

pub mod store;

/// Ends of ranges lie from 0 to 32767.
const LARGEST_END: u16 = 32_767;

/// At the first stop a token may be handed over at the ages from `lower` to `upper`.
#[derive(Clone, Copy, PartialEq, Eq, Debug)]
pub struct Handover {
    lower: u16,
    upper: u16,
    ghost ordered: { lower ≤ upper },
    ghost small: { upper ≤ largest_end },
}

impl Handover {
    /// None where the lower end is past the upper one, or the upper one past the largest; either
    /// way there is no such range.
    pub fn new(lower: u16, upper: u16) -> Option<Handover>
        ensures { MatchOption result
            ((upper < lower) ⊎ (largest_end < upper))
            (λ h. (h.lower ≡ lower) × (h.upper ≡ upper)) }
    {
        if lower <= upper && upper <= LARGEST_END {
            Some(Handover { lower, upper })
        } else {
            None
        }
    }
}
