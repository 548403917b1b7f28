//! A tree that is shared and put again.
use std::alloc::Global;
use td_cases::{CaseFault, Out};
use td_layer::{Key, NoMem};
use td_memtree::Tree;

// The tree with one pair more, where it has less than a million.
fn with_pair(alloc: Global, tree: &Tree<u64>, ts: u64) -> Result<Tree<u64>, NoMem> {
    if tree.len() >= 1_000_000 {
        return tree.share();
    }
    tree.insert(alloc, Key { table: 1, ts }, ts)
}

// The tree of `n` more pairs, whose timestamps begin at `from` and are two apart.
fn filled(alloc: Global, tree: &Tree<u64>, from: u32, n: u32) -> Result<Tree<u64>, NoMem> {
    let mut tree = tree.share()?;
    for i in 0..n {
        let more = with_pair(alloc, &tree, u64::from(from) + 2 * u64::from(i));
        drop(tree);
        tree = more?;
    }
    Ok(tree)
}

// Adds how many pairs a walk gives, and the sum of their timestamps.
fn push_walked(out: &mut Out, name: &[u8], tree: &Tree<u64>) {
    let mut pairs = 0_u64;
    let mut sum = 0_u64;
    for (key, _) in tree.walk(Key { table: 0, ts: 0 }) {
        pairs = pairs.wrapping_add(1);
        sum = sum.wrapping_add(key.ts);
    }
    out.push(name);
    out.number(i128::from(pairs));
    out.push(b" pairs ");
    out.number(i128::from(sum));
    out.push(b"\n");
}

/// Adds what the share of a tree of `n` pairs walks after `n` more were put, and what the tree walks.
pub(crate) fn push_shared(out: &mut Out, alloc: Global, n: u32) -> Result<(), CaseFault> {
    let old = filled(alloc, &Tree::new(), 0, n)?;
    let pushed = push_filled(out, alloc, &old, n);
    drop(old);
    pushed?;
    Ok(())
}

fn push_filled(out: &mut Out, alloc: Global, old: &Tree<u64>, n: u32) -> Result<(), NoMem> {
    let kept = old.share()?;
    let new = filled(alloc, old, 1, n);
    push_walked(out, b"share ", &kept);
    drop(kept);
    let new = new?;
    push_walked(out, b"tree ", &new);
    drop(new);
    Ok(())
}
