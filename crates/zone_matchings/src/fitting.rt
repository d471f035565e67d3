// Which digits an arc can have, after those of the arcs before it. A search asks this of each digit,
// so the tests are inlined into it.
ghost use Rattle.zones.specs.Digits.{digit_fits as fit_spec, Fitting};
ghost use Rattle.zones.specs.Predecessors.{among as among_spec, stands as stands_spec};
ghost use Rattle.std.specs.Prelude.{◌≡◌};

use crate::counted::numbered;
use crate::outputs::Outputs;

/// Whether the token is one of the digits.
#[inline(always)]
pub fn is_among(token: u8, digits: &[u8]) -> bool
    ensures { result ≡ among_spec token digits.now }
{
    digits.iter().any(|digit| *digit == token)
}

// Whether there is such a token, and in this place.
#[inline(always)]
fn stands_in(places: &[u8], token: u8, place: u8) -> bool
    ensures { result ≡ stands_spec places.now token place }
{
    let token = usize::from(token);
    (1..=places.len()).contains(&token) && numbered(places, token, 0) == place
}

impl<'a> Outputs<'a> {
    // Whether the arc after those with the digits `before` can have the digit.
    #[inline(always)]
    pub(crate) fn fits(&self, before: &[u8], digit: u8) -> bool
        ensures { result ≡ fit_spec self.now.arcs.items self.now.tokens.now before.now digit }
    {
        let Outputs { arcs, tokens } = self;
        let arc = arcs.get(before.len());
        digit == 0
            || arc.is_some_and(|place| stands_in(tokens, digit, *place)) && !is_among(digit, before)
    }

    // How many digits from the first on fit. By index, since each digit is tested after all those
    // before it.
    #[inline(always)]
    pub(crate) fn count_fitting(&self, digits: &[u8]) -> usize
        ensures { Fitting self.now.arcs.items self.now.tokens.now digits.now result }
    {
        (0..digits.len())
            .find(|i| !self.fits(&digits[..*i], digits[*i]))
            .unwrap_or(digits.len())
    }
}
