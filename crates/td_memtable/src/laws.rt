//! What is proved of the definitions alone.
ghost use Rattle.std.specs.Prelude.{◌≡◌, ℕ, List};
ghost use Rattle.td_memtable.specs.Joined.{IsJoinOf};

/// Ranges of timestamps are joined in one way.
pub fn one_join()
    ensures { (cuts ranges others : List (ℕ × ℕ)) → IsJoinOf ranges cuts → IsJoinOf others cuts → ranges ≡ others }
{}
