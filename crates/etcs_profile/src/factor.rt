//! `factor`: how many decimetres one step of a `Scale` is.

ghost use Rattle.std.specs.Prelude.{◌≡◌};
ghost use Rattle.etcs_profile.specs.Reach.{scale_factor};

use etcs_bits::Scale;

/// How many decimetres one step of a scale is.
pub fn factor(scale: Scale) -> u64
    ensures { result ≡ scale_factor scale }
{
    match scale {
        Scale::TenCentimetres => 1,
        Scale::Metre => 10,
        Scale::TenMetres => 100,
    }
}
