//! The trait `Element`: an element of a profile, with its distance and perhaps an end mark.

ghost use Rattle.std.specs.Prelude.{◌≡◌, ◌<◌, ℕ, Bool};

use etcs_bits::Layout;

/// An element of a profile: a place on the track, and what holds from there onwards (SUBSET-026,
/// 7.4.2).
pub trait Element: Layout {
    /// The element's distance, as a number.
    ghost distance_of: { Self → ℕ };

    /// Whether it is marked as the end.
    ghost marked: { Self → Bool };

    /// The distance from the element before, in the packet's scale.
    fn distance(&self) -> u32
        ensures number { result ≡ distance_of self.now }
        ensures small { result < 32768 };

    /// Whether it marks the end of the profile.
    fn is_end(&self) -> bool
        ensures { result ≡ marked self.now };
}
