//! What is asked of the value that takes turns.

/// A value that names a base and stands for a list of entries.
///
/// The base never changes; it has the number of the last version before the list's first entry. Each further entry has
/// the next version. Both are for contracts alone.
pub trait Turned: Send {
    ghost use Rattle.std.specs.Prelude.{ℕ, List};

    /// What a base is.
    type Base;

    /// What an entry is.
    type Entry;

    /// The base of the value.
    ghost base: { Self → Self.Base };

    /// The last version before the entries of the list.
    ghost first: { Self.Base → ℕ };

    /// The entries that the value stands for, in order.
    ghost list: { Self → List Self.Entry };
}
