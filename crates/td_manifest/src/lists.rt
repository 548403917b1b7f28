//! Lists of items, and numbers of which one stands for none.
ghost use Rattle.std.specs.Prelude.{◌≡◌, [], ◌∷◌, ◌++◌, List, IfOk, OnOk};
ghost use Rattle.td_codec.specs.Fields.{Gives};
ghost use Rattle.td_codec.specs.Lists.{Items, items_read};

use std::alloc::Global;
use td_codec::ReadFault;
use td_layer::Seq;

/// Reads the items of a list one by one. It may keep what it has to know of the items before.
pub(crate) trait ItemReader {
    type Item: Drop;

    /// The items of its list, which stay the same.
    ghost items: { Self → Items Self.Item };

    /// Whether it knows what it has to know of the items before.
    ghost knows: { Self → List Self.Item → Type 0 };

    /// The item at the front of `bytes`, behind those before it.
    fn item_of<'a>(
        &mut self,
        alloc: Global,
        before: &[Self::Item],
        bytes: &'a [u8],
    ) -> Result<(Self::Item, &'a [u8]), ReadFault>
        requires { knows self.old before.now }
        ensures read { Gives (λ x. (x.0, x.1.now)) result ((items self.old).read before.now bytes.now) }
        ensures knows { IfOk result (λ x. knows self.new (before.now ++ x.0 ∷ [])) }
        ensures same { OnOk result (items self.new ≡ items self.old) };
}

/// So many items.
pub(crate) fn items_of<'a, R: ItemReader>(
    alloc: Global,
    reader: &mut R,
    count: u32,
    bytes: &'a [u8],
) -> Result<(Seq<R::Item>, &'a [u8]), ReadFault>
    requires { R.knows reader.old [] }
    ensures read { Gives (λ x. (x.0, x.1.now)) result (items_read (R.items reader.old) [] count bytes.now) }
    ensures knows { IfOk result (λ x. R.knows reader.new x.0) }
{
    let mut items = Seq::new(alloc);
    let mut rest = bytes;
    for _ in 0..count {
        let (item, after) = reader.item_of(alloc, items.as_slice(), rest)?;
        items.add(item)?;
        rest = after;
    }
    Ok((items, rest))
}
