//! Lists of items.
ghost use Rattle.std.specs.Prelude.{◌≡◌, [], ◌∷◌, ◌++◌, List, IfOk, OnOk};
ghost use Rattle.td_codec.specs.Fields.{Gives};
ghost use Rattle.td_codec.specs.Lists.{Items, counted, items_read};

use crate::fault::ReadFault;
use crate::numbers::u32_of;
use std::alloc::Global;
use td_layer::Seq;

/// Reads the items of a list one by one. It may keep what it has to know of the items before.
pub trait ItemReader {
    type Item: Drop;

    /// The items of its lists.
    ghost items: { Items Self.Item };

    /// Whether it knows what it has to know of the items before.
    ghost knows: { Self → List Self.Item → Type 0 };

    /// The item at the front of `bytes`, behind those before it.
    fn item_of<'a>(
        &mut self,
        alloc: Global,
        before: &[Self::Item],
        bytes: &'a [u8],
    ) -> Result<(Self::Item, &'a [u8]), ReadFault>
        requires { knows self.old before.now }
        ensures read { Gives (λ x. (x.0, x.1.now)) result (items.read before.now bytes.now) }
        ensures knows { IfOk result (λ x. knows self.new (before.now ++ x.0 ∷ [])) };
}

/// So many items.
fn items_of<'a, R: ItemReader>(
    alloc: Global,
    reader: &mut R,
    count: u32,
    bytes: &'a [u8],
) -> Result<(Seq<R::Item>, &'a [u8]), ReadFault>
    requires { R.knows reader.old [] }
    ensures { Gives (λ x. (x.0, x.1.now)) result (items_read R.items [] count bytes.now) }
{
    let mut items = Seq::new(alloc);
    let mut rest = bytes;
    for _ in 0..count {
        let (item, after) = reader.item_of(alloc, items.as_slice(), rest)?;
        items.add(item)?;
        rest = after;
    }
    Ok((items, rest))
}

/// A count of 32 bits and so many items.
pub fn list_of<'a, R: ItemReader>(
    alloc: Global,
    reader: &mut R,
    bytes: &'a [u8],
) -> Result<(Seq<R::Item>, &'a [u8]), ReadFault>
    requires { R.knows reader.old [] }
    ensures { Gives (λ x. (x.0, x.1.now)) result ((counted R.items).read bytes.now) }
{
    let (count, rest) = u32_of(bytes)?;
    let (items, rest) = items_of(alloc, reader, count, rest)?;
    Ok((items, rest))
}
