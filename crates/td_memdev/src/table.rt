//! Tables: lists of entries with numbers.
ghost use Rattle.std.specs.Prelude.{◌≡◌, ◌<◌, ◌≤◌, ◌^◌, ◌-◌, ℕ, IfSome, IfNone, None, length};
ghost use Rattle.td_memdev.specs.Tables.{find, IsAt, AreTaken};

/// An entry with a number.
pub trait Numbered {
    ghost number: { Self → ℕ };

    fn number(&self) -> u64
        ensures { result ≡ number self.now };
}

/// The place of the first entry of a number.
pub fn place_of<T: Numbered>(entries: &[T], number: u64) -> Option<usize>
    ensures found { IfSome result (λ place. IsAt T.number number place entries.now) }
    ensures within { IfSome result (λ place. place < length entries.now) }
    ensures none { IfNone result (find T.number number entries.now ≡ None) }
{
    for (place, entry) in entries.iter().enumerate() {
        if entry.number() == number {
            return Some(place);
        }
    }
    None
}

/// A number below 2^64-1 that no entry has, the first from a number on, if there is one.
pub fn free_from<T: Numbered>(entries: &[T], from: u64) -> Option<u64>
    ensures free { IfSome result (λ n. find T.number n entries.now ≡ None) }
    ensures first { IfSome result (λ n. (from ≤ n) × AreTaken T.number from n entries.now) }
    ensures small { IfSome result (λ n. n < 2 ^ 64 - 1) }
    ensures none { IfNone result (AreTaken T.number from (2 ^ 64 - 1) entries.now) }
{
    for number in from..u64::MAX {
        if place_of(entries, number).is_none() {
            return Some(number);
        }
    }
    None
}
