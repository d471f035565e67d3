// The next number whose digits all fit.
ghost use Rattle.std.specs.Prelude.{◌<◌, []};
ghost use Rattle.zone_matchings.specs.Next.{Next, NextBelow};
ghost use Rattle.zones.specs.Digits.{digit_fits as fit_spec, all_fit};
ghost use Rattle.zones.specs.Predecessors.{fields};

use crate::numerals::{digits, raise};
use crate::outputs::Outputs;

impl<'a> Outputs<'a> {
    // The least digit above this one that fits after those before.
    fn next_digit(&self, before: &[u8], digit: u8) -> Option<u8>
        requires { digit < 16 }
        ensures { NextBelow 16 (fit_spec self.now.arcs.items self.now.tokens.now before.now) digit
            result }
    {
        (digit + 1..16).find(|next| self.fits(before, *next))
    }

    // The last digit that can be raised is, and the later ones become 0.
    // Digits behind one that does not fit do not matter.
    pub(crate) fn next(&self, after: u16) -> Option<u16>
        ensures { Next (λ n. all_fit self.now.arcs.items self.now.tokens.now [] (fields n)) after
            result }
    {
        let digits = digits(after);
        let fitting = self.count_fitting(&digits);
        (0..(fitting + 1).min(4)).rev().find_map(|i| {
            let next = self.next_digit(&digits[..i], digits[i])?;
            Some(raise(after, i, next))
        })
    }
}
