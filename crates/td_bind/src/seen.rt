//! Names that were seen before.
ghost use Rattle.std.specs.Prelude.{◌≡◌, ◌++◌, [], ◌∷◌, not, IfOk, IsTrue};
ghost use Rattle.std.specs.List.{list_any};
ghost use Rattle.std.specs.Str.{bytes_eq};
ghost use Rattle.td_verdict.specs.Names.{stands_twice};
ghost use Rattle.td_bind.specs.Seen.{texts};

use indexmap::IndexSet;
use std::alloc::Global;
use td_layer::{Name, NoMem};

// Adds a name to those that were seen, and tells whether it is new.
fn add(alloc: Global, seen: &mut IndexSet<Vec<u8>>, name: &Name) -> Result<bool, NoMem>
    ensures added { IfOk result (λ added. added ≡ not (list_any (bytes_eq name.now) (texts seen.old.keys))) }
    ensures keys { IfOk result (λ added. IsTrue added → texts seen.new.keys ≡ texts seen.old.keys ++ name.now ∷ []) }
{
    let key = Vec::from_slice(alloc, name.as_slice())?;
    let added = seen.insert(key)?;
    Ok(added)
}

// Whether a name stands twice.
pub(crate) fn stands_twice(alloc: Global, names: &[Name]) -> Result<bool, NoMem>
    ensures { IfOk result (λ twice. twice ≡ stands_twice names.now) }
{
    let mut seen = IndexSet::new(alloc);
    for name in names {
        let added = add(alloc, &mut seen, name)?;
        if !added {
            return Ok(true);
        }
    }
    Ok(false)
}
