// Bytes of a slice; past its end they read as 0.
ghost use Rattle.nets.specs.Nets.{numbered};
ghost use Rattle.std.specs.Prelude.{◌≡◌, slice_index};

use zone_matchings::numbered;

pub fn byte(bytes: &[u8], at: usize) -> u8
    ensures { result ≡ slice_index bytes.now at }
{
    bytes.get(at).copied().unwrap_or(0)
}

/// The place of a token, numbered from 1; 0 of any other number.
pub fn place_of(places: &[u8], token: u8) -> u8
    ensures { result ≡ numbered places.now token 0 }
{
    numbered(places, usize::from(token), 0)
}
