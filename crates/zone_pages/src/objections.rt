// What can stand against a page's vouching for an item.
ghost use Rattle.zone_pages.specs.Objections.{objection_number, objection_text};
ghost use Rattle.std.specs.Prelude.{◌≡◌, Some};

use std::fmt;

/// What can stand against it, by number; the lowest number that holds counts.
#[derive(Clone, Copy, PartialEq, Eq, Debug)]
pub enum Objection {
    /// Not one partner for each token, no token of the item, or one twice.
    Partner = 30,
    /// A token stands in another place than its partner.
    Place = 31,
    /// A bound of the item is larger than the page's.
    Bound = 32,
}

impl Objection {
    /// Its number. Not a `Refusal` of records, which this crate does not stand on: an objection is
    /// no fault at a byte.
    pub fn number(self) -> u8
        ensures { result ≡ objection_number self }
    {
        self as u8
    }
}

impl fmt::Display for Objection {
    ghost output = { λ o. Some (objection_text o) };

    fn fmt<W: fmt::Write>(&self, f: &mut fmt::Formatter<W>) -> fmt::Result {
        f.write_str(match self {
            Objection::Partner => "a partner is no token of the item, or is used twice",
            Objection::Place => "a token stands in another place than its partner",
            Objection::Bound => "a bound of the item is larger than the zone's",
        })
    }
}
