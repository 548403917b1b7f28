//! Pieces of a range of timestamps, of which each meets the day range of at most one file set.
ghost use Rattle.std.specs.Prelude.{◌≡◌, ℕ, ◌+◌, ◌≤◌, length, map, slice_index, List};
ghost use Rattle.td_fileset.specs.Layered.{OpenSet, HaveOwnRanges};
ghost use Rattle.td_fileset.specs.Opened.{Readers};
ghost use Rattle.td_fileset.specs.Pieces.{IsNearest, IsPiece};

use crate::set_readers::SetReaders;
use td_fileio::{FileBytes, day_end, day_start};

/// The first timestamps of a range, up to one, and the number of the file set whose day range they meet, counted from
/// 0, where they meet one.
#[derive(Clone, Copy)]
pub(crate) struct Piece {
    pub(crate) set: Option<usize>,
    pub(crate) to: u64,
}

// The nearest of some day ranges and one more, with the numbers of their sets.
#[tactic(auto, using(crate::proofs::Nearest::near_ended, crate::proofs::Nearest::near_first, crate::proofs::Nearest::near_kept, crate::proofs::Nearest::near_less,))]
fn nearer(nearest: Option<(usize, u32)>, from: u64, at: usize, range: u32) -> Option<(usize, u32)>
    ensures { (ranges : List ℕ) → slice_index ranges at ≡ range → IsNearest from ranges at nearest
        → IsNearest from ranges (at + 1) result }
{
    if day_end(range) < from {
        return nearest;
    }
    let Some(former) = nearest else {
        return Some((at, range));
    };
    if former.1 <= range {
        return nearest;
    }
    Some((at, range))
}

// The least day range that doesn't end before a timestamp, with the number of its set, counted from 0.
fn nearest_set<R: FileBytes>(sets: &[SetReaders<R>], from: u64) -> Option<(usize, u32)>
    ensures { IsNearest from (map (λ (s : OpenSet). s.range) (map (λ (r : Readers). r.files) sets.now))
        (length (map (λ (r : Readers). r.files) sets.now)) result }
{
    let mut nearest = None;
    for at in 0..sets.len() {
        nearest = nearer(nearest, from, at, sets[at].range());
    }
    nearest
}

/// The first piece of a range of timestamps.
#[tactic(auto, using(crate::proofs::Nearest::none_near, crate::proofs::Nearest::none_meets, crate::proofs::Nearest::one_meets,))]
pub(crate) fn next_piece<R: FileBytes>(sets: &[SetReaders<R>], from: u64, hi: u64) -> Piece
    requires own { HaveOwnRanges (map (λ (r : Readers). r.files) sets.now) }
    requires some { from ≤ hi }
    ensures { IsPiece (map (λ (r : Readers). r.files) sets.now) from hi result.to result.set }
{
    let Some((at, range)) = nearest_set(sets, from) else {
        return Piece { set: None, to: hi };
    };
    if hi < day_start(range) {
        return Piece { set: None, to: hi };
    }
    Piece {
        set: Some(at),
        to: hi.min(day_end(range)),
    }
}
