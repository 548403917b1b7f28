//! Forks turned where they stand.
ghost use Rattle.std.specs.Prelude.{◌≡◌, ◌+◌, ◌^◌, ◌<◌, ◌++◌, true, length, IsTrue, IsFalse};
ghost use Rattle.td_memtree.specs.Keys.{Balanced};
ghost use Rattle.td_memtree.specs.Parts.{Parts};

use crate::branch::{Branch, Shape};
use crate::put::recount;
use std::mem::swap;
use std::sync::Arc;
use td_layer::Key;

// Whether the right branch is so much heavier than the left one that a turn to the left pays.
fn leans_right<T>(left: &Branch<T>, right: &Branch<T>) -> bool {
    7 * (left.forks() as u64 + 1) < 4 * (right.forks() as u64 + 2)
}

// Whether branches of so many forks may stand as two on the left, one below the other, and one on the right.
fn may_turn(l: u32, m: u32, r: u32) -> bool
    ensures { result ≡ true → Balanced l m × Balanced (l + m + 1) r }
{
    let (l, m, r) = (l as u64 + 1, m as u64 + 1, r as u64 + 1);
    l <= 3 * m && m <= 3 * l && l + m <= 3 * r && r <= 3 * (l + m)
}

// Where the right branch is no other tree's and all stays balanced so, the left branch and the nearer side of the right
// one become that right branch, and what was left of it becomes the left branch.
fn lower<T>(left: &mut Branch<T>, key: &mut Key, right: &mut Branch<T>) -> bool
    requires parted { Parts key.old left.old.0 right.old.0 }
    requires fits { length left.old.0 + length right.old.0 < 2 ^ 32 }
    ensures pairs { IsTrue result → right.new.0 ++ left.new.0 ≡ left.old.0 ++ right.old.0 }
    ensures forks { IsTrue result → right.new.1 + left.new.1 ≡ left.old.1 + right.old.1 }
    ensures parted { IsTrue result → Parts key.new right.new.0 left.new.0 }
    ensures balanced { IsTrue result → Balanced right.new.1 left.new.1 }
    ensures left { IsFalse result → left.new ≡ left.old }
    ensures key { IsFalse result → key.new ≡ key.old }
    ensures right { IsFalse result → right.new ≡ right.old }
{
    if let Shape::OfFork(shared) = &mut right.shape {
        if let Some(below) = Arc::get_mut(shared) {
            if may_turn(left.forks(), below.left.forks(), below.right.forks()) {
                swap(key, &mut below.key);
                swap(left, &mut below.left);
                swap(left, &mut below.right);
                recount(below);
                return true;
            }
        }
    }
    false
}

impl<T> Branch<T> {
    /// Where the right branch is much the heavier, the root turns to the left, if no other tree has it and that branch
    /// and all stays balanced so. The pairs stay as they are. So the keys of puts that rise stand on few levels.
    pub(crate) fn turn_left(&mut self)
        ensures { self.new ≡ self.old }
    {
        let _len = self.len();
        if let Shape::OfFork(shared) = &mut self.shape {
            if let Some(fork) = Arc::get_mut(shared) {
                if !leans_right(&fork.left, &fork.right) {
                    return;
                }
                if lower(&mut fork.left, &mut fork.key, &mut fork.right) {
                    swap(&mut fork.left, &mut fork.right);
                    let _left = fork.left.forks();
                    let _right = fork.right.forks();
                    return;
                }
            }
        }
    }
}
