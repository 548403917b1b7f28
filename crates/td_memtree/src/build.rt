//! Branches of lists of pairs.
ghost use Rattle.std.specs.Prelude.{◌≡◌, ◌+◌, ◌-◌, ◌*◌, ◌^◌, ◌<◌, ◌≤◌, ◌++◌, length, IfOk};
ghost use Rattle.td_layer.specs.Keys.{InKeyOrder};

use crate::branch::{Branch, Pair};
use crate::leaf::LEAF_PAIRS;
use std::alloc::Global;
use std::sync::Arc;
use td_layer::{Key, NoMem, Seq};

// The last `n` pairs, which are taken off.
fn last_pairs<T: Drop>(
    alloc: Global,
    pairs: &mut Seq<(Key, T)>,
    n: usize,
) -> Result<Vec<Pair<T>>, NoMem>
    requires { n ≤ length pairs.old }
    ensures pairs { IfOk result (λ v. pairs.old ≡ pairs.new ++ v.items) }
    ensures count { IfOk result (λ v. length v.items ≡ n) }
{
    let mut taken = Vec::with_capacity(alloc, n)?;
    for _ in 0..n {
        let Some((key, item)) = pairs.pop() else {
            unreachable!()
        };
        let item = Arc::new(alloc, item)?;
        taken.insert(0, Pair { key, item })?;
    }
    Ok(taken)
}

impl<T: Drop> Branch<T> {
    /// The branch of the last `n` pairs, which are taken off, with so many forks.
    pub(crate) fn build(
        alloc: Global,
        pairs: &mut Seq<(Key, T)>,
        n: usize,
        forks: usize,
    ) -> Result<Branch<T>, NoMem>
        requires within { n ≤ length pairs.old }
        requires sorted { InKeyOrder pairs.old }
        requires few { n < 2 ^ 32 }
        requires enough { forks < n }
        ensures pairs { IfOk result (λ b. pairs.old ≡ pairs.new ++ b.0) }
        ensures count { IfOk result (λ b. length b.0 ≡ n) }
        ensures forks { IfOk result (λ b. b.1 ≡ forks) }
    {
        if forks == 0 {
            let pairs = last_pairs(alloc, pairs, n)?;
            let done = Branch::leaf(alloc, pairs)?;
            return Ok(done);
        }
        let below = (forks - 1) / 2;
        let few = (LEAF_PAIRS * (below + 1)).min(n - (forks - below));
        let right = Branch::build(alloc, pairs, few, below)?;
        let _forks = right.forks();
        let key = right.first_key();
        let left = Branch::build(alloc, pairs, n - few, forks - 1 - below)?;
        let done = Branch::fork(alloc, left, key, right)?;
        Ok(done)
    }
}
