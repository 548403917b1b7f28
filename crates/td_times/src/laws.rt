//! What holds of every text: laws of the timestamps' definitions.
ghost use Rattle.std.specs.Prelude.{◌≡◌, ℕ, ℤ, List, Some};
ghost use Rattle.td_times.specs.Times.{stamp_text, IsTimestamp};
ghost use Rattle.td_times.specs.Stamps.{timestamp_of};
ghost use Rattle.td_times.specs.Moments.{Moment, Exists, full, since_1970};

/// A text says one time at most.
pub fn one_time()
    ensures { (text : List ℕ) (m n : ℤ) → IsTimestamp text m → IsTimestamp text n → m ≡ n }
{}

/// The full form of a moment is read as that moment.
pub fn printed_time()
    ensures { (m : Moment) → Exists m → IsTimestamp (stamp_text (full m)) (since_1970 m) }
{}

/// Reading a text from left to right finds exactly the time that it says.
pub fn read_from_the_left()
    ensures says { (text : List ℕ) (n : ℤ) → IsTimestamp text n → timestamp_of text ≡ Some n }
    ensures found { (text : List ℕ) (n : ℤ) → timestamp_of text ≡ Some n → IsTimestamp text n }
{}
