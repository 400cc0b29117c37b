//! Names among others.
ghost use Rattle.std.specs.Prelude.{◌≡◌};
ghost use Rattle.std.specs.List.{list_any};
ghost use Rattle.std.specs.Str.{bytes_eq};

use ndc_event::Name;

/// Whether a name is one of these.
pub(crate) fn is_among(names: &[Name], name: &Name) -> bool
    ensures { result ≡ list_any (λ one. bytes_eq one name.now) names.now }
{
    names.iter().any(|one| *one == *name)
}
