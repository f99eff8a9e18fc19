//! The trait `Same`: equality of two values as contracts see them.

ghost use Rattle.std.specs.Prelude.{◌≡◌, ◌↔◌, IsTrue};

/// Values that can be compared by what contracts see of them: records, variables and lists of bits.
/// `==` promises less to generic code: it may hold for two values that differ.
pub trait Same {
    /// Whether two values are equal. Takes no memory.
    fn same(&self, other: &Self) -> bool
        ensures { IsTrue result ↔ (self.now ≡ other.now) };
}

/// Whether two lists have the same items in the same order, such as the packets of two telegrams.
/// Takes no memory.
pub fn are_same<T: Same>(these: &[T], those: &[T]) -> bool
    ensures { IsTrue result ↔ (these.now ≡ those.now) }
{
    if these.len() != those.len() {
        return false;
    }
    'items: for i in 0..these.len() {
        if !these[i].same(&those[i]) {
            return false;
        }
    }
    true
}
