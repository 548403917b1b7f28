//! Names that are taken, and the place for one more.
ghost use Rattle.std.specs.Prelude.{◌≡◌};
ghost use Rattle.td_verdict.specs.Names.{is_taken};
ghost use Rattle.td_verdict.specs.Writes.{is_full};

use td_catalog::Catalog;
use td_layer::Name;
use td_limits::TABLES;

// Whether a name is a table's, a supertable's or a target's.
pub(crate) fn is_taken(name: &Name, catalog: &Catalog) -> bool
    ensures { result ≡ is_taken name.now catalog.now.catalog }
{
    catalog.find_table(name).is_some()
        || catalog.find_stable(name).is_some()
        || catalog.find_target(name).is_some()
}

// Whether there is no place for one more table or supertable.
pub(crate) fn is_full(catalog: &Catalog) -> bool
    ensures { result ≡ is_full catalog.now.catalog }
{
    TABLES as u64 <= u64::from(catalog.tables()) + u64::from(catalog.stables())
}
