//! The least of several places.
ghost use Rattle.std.specs.Prelude.{◌≡◌};
ghost use Rattle.idl_rules.specs.Least as spec;
ghost use Rattle.idl_rules.specs.Places.{at_if};

/// The lesser of two places, where there are any.
pub fn lesser(a: Option<usize>, b: Option<usize>) -> Option<usize>
    ensures { result ≡ spec.lesser a b }
{
    match (a, b) {
        (None, b) => b,
        (a, None) => a,
        (Some(x), Some(y)) => Some(x.min(y)),
    }
}

/// The place, where something is broken there.
pub fn place_if(broken: bool, at: usize) -> Option<usize>
    ensures { result ≡ spec.least (at_if broken at) }
{
    if broken { Some(at) } else { None }
}
