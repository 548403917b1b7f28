//! The pairs of a leaf.
ghost use Rattle.std.specs.Prelude.{◌≡◌, ◌+◌, ◌^◌, ◌<◌, ◌≤◌, true, false, [], ◌∷◌, ◌++◌, length, IfOk, IfErr, OnOk, OnErr};
ghost use Rattle.std.specs.Arc.{arc_value};
ghost use Rattle.td_layer.specs.Keys.{InKeyOrder, key_cmp};
ghost use Rattle.td_memtree.specs.Keys.{with_item, without, pairs_from};
ghost use Rattle.td_memtree.specs.Places.{place, is_there};

use crate::branch::{Branch, Pair};
use std::alloc::Global;
use std::cmp::Ordering;
use std::sync::Arc;
use td_layer::{Key, NoMem};

/// The pairs that a leaf takes. One that would get more becomes two.
pub(crate) const LEAF_PAIRS: usize = 16;

impl<T> Pair<T> {
    // The same pair, of the same item.
    fn share(&self) -> Result<Pair<T>, NoMem>
        ensures { IfOk result (λ p. p ≡ self.now) }
    {
        let item = Arc::try_clone(&self.item)?;
        Ok(Pair {
            key: self.key,
            item,
        })
    }

    pub(crate) fn key(&self) -> Key
        ensures { result ≡ self.now.0 }
    {
        self.key
    }
}

/// Where the pair of a key stands, or, if there is none, where it would stand.
pub(crate) fn place_of<T>(pairs: &[Pair<T>], key: Key) -> Result<usize, usize>
    ensures there { IfOk result (λ at. at ≡ place key_cmp key pairs.now) }
    ensures found { IfOk result (λ _. is_there key_cmp key pairs.now ≡ true) }
    ensures inside { IfOk result (λ at. at < length pairs.now) }
    ensures absent { IfErr result (λ at. at ≡ place key_cmp key pairs.now) }
    ensures missing { IfErr result (λ _. is_there key_cmp key pairs.now ≡ false) }
    ensures within { IfErr result (λ at. at ≤ length pairs.now) }
{
    let mut left = pairs;
    while let Some((pair, rest)) = left.split_first() {
        match key.cmp(&pair.key()) {
            Ordering::Less => return Err(pairs.len() - left.len()),
            Ordering::Equal => return Ok(pairs.len() - left.len()),
            Ordering::Greater => left = rest,
        }
    }
    Err(pairs.len())
}

// Copies of pairs, of the same items, with room for so many.
fn copied<T: Drop>(alloc: Global, pairs: &[Pair<T>], room: usize) -> Result<Vec<Pair<T>>, NoMem>
    ensures { IfOk result (λ v. v.items ≡ pairs.now) }
{
    let mut copies = Vec::with_capacity(alloc, room)?;
    for pair in pairs {
        copies.push(pair.share()?)?;
    }
    Ok(copies)
}

/// Puts an item at a key among pairs.
pub(crate) fn put_here<T: Drop>(
    pairs: &mut Vec<Pair<T>>,
    key: Key,
    item: Arc<T, Global>,
) -> Result<(), NoMem>
    ensures ok { OnOk result (pairs.new.items ≡ with_item key (arc_value item) pairs.old.items) }
    ensures err { OnErr result (pairs.new.items ≡ pairs.old.items) }
{
    match place_of(pairs.as_slice(), key) {
        Ok(at) => {
            let key = pairs[at].key();
            pairs[at] = Pair { key, item };
            Ok(())
        }
        Err(at) => {
            pairs.insert(at, Pair { key, item })?;
            Ok(())
        }
    }
}

// Where so many pairs are parted in two.
fn cut_at(len: usize, rises: bool) -> usize
    requires { 2 ≤ len }
    ensures first { 0 < result }
    ensures second { result < len }
{
    if rises { len - 1 } else { len / 2 }
}

// Whether the last pair is that of the key.
fn is_last<T>(pairs: &[Pair<T>], key: Key) -> bool {
    match pairs.last() {
        None => false,
        Some(pair) => pair.key() == key,
    }
}

// The pairs without that of the key.
pub(crate) fn pairs_without<T: Drop>(
    alloc: Global,
    pairs: &[Pair<T>],
    key: Key,
) -> Result<Vec<Pair<T>>, NoMem>
    requires { InKeyOrder pairs.now }
    ensures { IfOk result (λ v. v.items ≡ without key pairs.now) }
{
    let mut made = copied(alloc, pairs, pairs.len())?;
    match place_of(pairs, key) {
        Ok(at) => {
            let _taken = made.remove(at);
            Ok(made)
        }
        Err(_) => Ok(made),
    }
}

/// The pairs whose keys are not before this one.
pub(crate) fn rest_from<T>(pairs: &[Pair<T>], from: Key) -> &[Pair<T>]
    requires { InKeyOrder pairs.now }
    ensures { result.now ≡ pairs_from from pairs.now }
{
    match place_of(pairs, from) {
        Ok(at) => pairs.split_at(at).1,
        Err(at) => pairs.split_at(at).1,
    }
}

impl<T: Drop> Branch<T> {
    // Two leaves of these pairs. Where the last one is new, as for keys that rise, it stands alone in the second.
    fn two_leaves(alloc: Global, pairs: &[Pair<T>], rises: bool) -> Result<Branch<T>, NoMem>
        requires sorted { InKeyOrder pairs.now }
        requires two { 2 ≤ length pairs.now }
        requires few { length pairs.now < 2 ^ 32 }
        ensures { IfOk result (λ b. b ≡ (pairs.now, 1)) }
    {
        let half = cut_at(pairs.len(), rises);
        let (front, back) = pairs.split_at(half);
        let first = &back[0];
        let key = first.key();
        let left = Branch::leaf(alloc, copied(alloc, front, front.len())?)?;
        let right = Branch::leaf(alloc, copied(alloc, back, back.len())?)?;
        let done = Branch::fork(alloc, left, key, right)?;
        Ok(done)
    }

    /// A leaf of one pair.
    pub(crate) fn of_pair(alloc: Global, key: Key, item: Arc<T, Global>) -> Result<Branch<T>, NoMem>
        ensures { IfOk result (λ b. b ≡ ((key, arc_value item) ∷ [], 0)) }
    {
        let mut pairs = Vec::with_capacity(alloc, 1)?;
        pairs.push(Pair { key, item })?;
        let done = Branch::leaf(alloc, pairs)?;
        Ok(done)
    }

    /// A leaf of these pairs with this item at the key, or two if it would get too many.
    pub(crate) fn leaf_with(
        alloc: Global,
        pairs: &[Pair<T>],
        key: Key,
        item: Arc<T, Global>,
    ) -> Result<Branch<T>, NoMem>
        requires sorted { InKeyOrder pairs.now }
        requires few { length pairs.now + 1 < 2 ^ 32 }
        ensures pairs { IfOk result (λ b. b.0 ≡ with_item key (arc_value item) pairs.now) }
        ensures forks { IfOk result (λ b. b.1 ≤ 1) }
    {
        let mut made = copied(alloc, pairs, pairs.len() + 1)?;
        put_here(&mut made, key, item)?;
        if made.len() <= LEAF_PAIRS {
            let done = Branch::leaf(alloc, made)?;
            return Ok(done);
        }
        let rises = is_last(made.as_slice(), key);
        let done = Branch::two_leaves(alloc, made.as_slice(), rises)?;
        Ok(done)
    }
}
