// What zones and certificates mean for markings and runs.
ghost use Rattle.zones.specs.Safety.{CertificatesSound, CertificatesSoundByUnits, ZoneLaws};

use bounds::Bound;

/// Does nothing: its contract is what normal forms, vouching and both predecessors mean for
/// markings, for every kind.
pub fn zones_keep_laws<B: Bound>()
    ensures { ZoneLaws B.Bound.kind }
{}

/// Does nothing: its contract is that a certificate shows its target safe, for every kind and net,
/// and that the marking has to be kept from the listed zones on grid 1 alone.
pub fn certificates_are_sound<B: Bound>()
    ensures sound { CertificatesSound B.Bound.kind }
    ensures by_units { CertificatesSoundByUnits B.Bound.kind }
{}
