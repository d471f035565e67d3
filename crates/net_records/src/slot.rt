//! Arc slots: a place and a range in five bytes.
ghost use Rattle.net_records.specs.Slots.{SplitSlot, is_unused, is_empty, has_mark, has_stray_bit};
ghost use Rattle.std.specs.Prelude.{◌≡◌, ◌/◌, ◌%◌, ◌^◌, ◌<◌};
ghost use Rattle.std.specs.Prelude.{◌==◌};

/// One end of a range as its 16 bits say it: never below zero, as a number with a mark may be.
#[derive(Clone, Copy, PartialEq, Eq, Debug)]
pub struct End {
    pub strict: bool,
    pub number: u16,
}

/// What the five bytes of an arc say.
#[derive(Clone, Copy, PartialEq, Eq, Debug)]
pub struct Slot {
    pub place: u8,
    pub lower: End,
    /// none is no limit above
    pub upper: Option<End>,
    /// what stands in the upper end's bits where there is no limit
    pub unused: End,
    pub spare: bool,
}

/// A bit of a byte, counted from the lowest.
#[inline]
fn bit(byte: u8, place: u8) -> bool
    requires { place < 8 }
    ensures { result ≡ (byte / 2 ^ place % 2 == 1) }
{
    (byte >> place) % 2 == 1
}

impl End {
    const ZERO: End = End {
        strict: false,
        number: 0,
    };
}

impl Slot {
    /// How many bytes a slot has.
    pub const SIZE: usize = 5;

    /// The slot whose bits are all zero.
    pub const BLANK: Slot = Slot {
        place: 0,
        lower: End::ZERO,
        upper: Some(End::ZERO),
        unused: End::ZERO,
        spare: false,
    };

    /// The slot at the front of the bytes, and the bytes that follow it.
    #[inline]
    pub fn split(bytes: &[u8]) -> Option<(Slot, &[u8])>
        ensures { SplitSlot bytes.now result }
    {
        let [a, b, c, d, e, rest @ ..] = bytes else {
            return None;
        };
        let lower = End {
            strict: bit(*a, 1),
            number: u16::from(a % 2) * 16_384 + u16::from(*b) * 64 + u16::from(c / 4),
        };
        let upper = End {
            strict: bit(*c, 0),
            number: u16::from(*d) * 128 + u16::from(e / 2),
        };
        let unlimited = bit(*c, 1);
        let slot = Slot {
            place: a / 4,
            lower,
            upper: if unlimited { None } else { Some(upper) },
            unused: if unlimited { upper } else { End::ZERO },
            spare: bit(*e, 0),
        };
        Some((slot, rest))
    }

    /// Whether every bit is zero.
    pub fn is_unused(self) -> bool
        ensures { result ≡ is_unused self }
    {
        self == Slot::BLANK
    }

    /// Whether the bounds of the range sum below zero.
    pub fn is_empty(self) -> bool
        ensures { result ≡ is_empty self }
    {
        let lower = self.lower;
        self.upper.is_some_and(|upper| {
            upper.number < lower.number
                || upper.number == lower.number && (lower.strict | upper.strict)
        })
    }

    /// Whether an end has a mark, also one behind no limit.
    pub fn has_mark(self) -> bool
        ensures { result ≡ has_mark self }
    {
        self.lower.strict || self.upper.is_some_and(|upper| upper.strict) || self.unused.strict
    }

    /// Whether a bit that says nothing is set.
    pub fn has_stray_bit(self) -> bool
        ensures { result ≡ has_stray_bit self }
    {
        self.spare || self.unused != End::ZERO
    }
}
