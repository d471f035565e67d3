// The tokens of a zone under work, and the points of it that a matching parts.
ghost use Rattle.arrayvec.specs.ArrayVec.{array_vec_len};
ghost use Rattle.std.specs.Prelude.{[], ◌++◌, ◌≡◌, ◌≤◌, ◌∷◌, map, length};
ghost use Rattle.zone_cells.specs.Sifted.{sifted};
ghost use Rattle.nets.specs.Nets.{numbered};

use crate::byte_list::ByteList;
use crate::bytes::place_of;
use zone_matchings::is_among;

/// The place of each token of a zone; a predecessor has up to 12.
pub type Tokens = ByteList<12>;

// The tokens with these numbers. Pushed one by one, here and below: `collect` wants an allocator.
pub(crate) fn some_tokens(places: &[u8], numbers: &[u8]) -> Tokens
    requires { length numbers.now ≤ 12 }
    ensures { result.items ≡ map (λ i. numbered places.now i 0) numbers.now }
{
    let mut tokens = Tokens::new();
    for number in numbers {
        tokens.push(place_of(places, *number));
    }
    tokens
}

/// Points of a draft, the clock first.
pub type Points = ByteList<13>;

// The clock, and the tokens that are matched, or those that are not: the flag is only compared, so
// two closures would say no more.
pub(crate) fn sift(tokens: u8, matching: &[u8], matched: bool) -> Points
    requires { tokens ≤ 12 }
    ensures { result.items ≡ 0 ∷ sifted matched matching.now 1 tokens }
{
    let mut points = Points::new();
    points.push(0);
    for token in 1..=tokens {
        if is_among(token, matching) == matched {
            points.push(token);
        }
    }
    points
}
