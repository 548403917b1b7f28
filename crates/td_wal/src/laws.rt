//! Laws of logs: bytes are one log at most, or break the form of a log at one place; what stands behind a closed gate
//! means nothing; a new log has no items; what a crash leaves of a log.
ghost use Rattle.std.specs.Prelude.{◌≡◌, ◌≢◌, ◌≤◌, ◌+◌, ℕ, true, false, List, [], ◌∷◌, ◌++◌, length, Option};
ghost use Rattle.td_outside.specs.Crash.{MayLeave};
ghost use Rattle.td_outside.specs.Image.{Image, Becomes};
ghost use Rattle.td_outside.specs.Logs.{HasLog, new_log, after_log_create};
ghost use Rattle.td_wal.specs.Append.{IsSettled, IsWritable, Continues, next_gate, LogSays, LeavesEither, SettlesEither};
ghost use Rattle.td_wal.specs.declared.item.LogItem.{LogItem as Item};
ghost use Rattle.td_wal.specs.Items.{body_bytes};
ghost use Rattle.td_wal.specs.Log.{IsLog, BreaksAt, items_fit, last_moment, opened};

/// For bytes as a log from a version on there is one answer: its items, or the items before a fault and its place.
pub fn one_log(first: u64)
    ensures log { (bytes : List ℕ) (a b : List Item) → IsLog first bytes a → IsLog first bytes b → a ≡ b }
    ensures apart { (bytes : List ℕ) (a b : List Item) (at : ℕ) → IsLog first bytes a → BreaksAt first bytes b at → ⊥ }
    ensures fault { (bytes : List ℕ) (a b : List Item) (at other : ℕ) → BreaksAt first bytes a at
        → BreaksAt first bytes b other → (a ≡ b) × (at ≡ other) }
{}

/// Behind a closed gate any bytes may stand.
pub fn nothing_behind_a_closed_gate(first: u64)
    ensures { (items : List Item) (gate : ℕ) (rest other : List ℕ) → gate ≢ 1
        → IsLog first (opened items ++ gate ∷ rest) items → IsLog first (opened items ++ gate ∷ other) items }
{}

/// A log that was made has no items, whatever the version of the first that comes. Its closed gate is its only byte,
/// and it is stable.
pub fn a_new_log_is_empty()
    ensures log { (first : ℕ) → IsSettled first [] 0 new_log }
    ensures told { (n first : ℕ) (old new : Option Image) → Becomes (after_log_create n) old new
        → LogSays new n (IsSettled first [] 0) }
{}

/// An item continues a log of items where it can be written, its version is the next one, and its moment isn't before
/// the last; and an item that continues a log can be written.
pub fn what_continues_a_log()
    ensures continues { (first : ℕ) (items : List Item) (i : Item) → IsWritable i → items_fit first 0 items ≡ true
        → i.version ≡ first + length items → last_moment 0 items ≤ i.moment → Continues first items i }
    ensures writable { (first : ℕ) (items : List Item) (i : Item) → 1 ≤ first → Continues first items i → IsWritable i }
{}

/// The gate behind an item stands 30 bytes and those of the item's body behind the gate before it.
pub fn where_the_next_gate_stands()
    ensures { (at : ℕ) (i : Item) → next_gate at i ≡ at + 30 + length (body_bytes i.body) }
{}

/// Where no earlier call has left the log in doubt, a crash leaves a log that is stable as it is; and after an append
/// that failed it leaves the log of the items from before, or of these and the item, all of it stable.
pub fn a_crash_leaves_a_log()
    ensures settled { (n first : ℕ) (items : List Item) (at : ℕ) (now left : Image) → MayLeave now left
        → now.doubt.fresh n ≡ false → now.doubt.gone n ≡ false
        → HasLog n (IsSettled first items at) now → HasLog n (IsSettled first items at) left }
    ensures failed { (n first : ℕ) (items : List Item) (at : ℕ) (now left : Image) → MayLeave now left
        → now.doubt.fresh n ≡ false → now.doubt.gone n ≡ false
        → (i : Item) → HasLog n (LeavesEither first items at i) now → HasLog n (SettlesEither first items at i) left }
{}
