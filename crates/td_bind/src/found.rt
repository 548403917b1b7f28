//! What is found in a catalog by a name, with its schema.
ghost use Rattle.std.specs.Prelude.{◌≡◌, IfSome, Some};
ghost use Rattle.std.specs.Option.{option_map};
ghost use Rattle.td_model.specs.Catalog.{stable_named, table_named};
ghost use Rattle.td_verdict.specs.Names.{stable_schema, table_schema};
ghost use Rattle.td_verdict.specs.Valid.{IsSchema};
ghost use Rattle.td_verdict.specs.Writes.{written_cause};

use crate::names::is_taken;
use td_catalog::Catalog;
use td_layer::Name;
use td_model::{Cause, Schema};

// The supertable of a name: its number and its schema.
#[tactic(auto, using(crate::proofs::Numbers::stable_numbered))]
pub(crate) fn find_stable<'a>(catalog: &'a Catalog, name: &Name) -> Option<(u32, &'a Schema)>
    ensures number { option_map (λ p. p.0) result ≡ stable_named name.now catalog.now.catalog }
    ensures schema { IfSome result (λ p. p.1.now ≡ stable_schema (Some p.0) catalog.now.catalog) }
{
    let number = catalog.find_stable(name)?;
    Some((number, catalog.stable_schema(number)))
}

// The table of a name: its number and its schema.
#[tactic(auto, using(crate::proofs::Numbers::table_numbered))]
pub(crate) fn find_table<'a>(catalog: &'a Catalog, name: &Name) -> Option<(u32, &'a Schema)>
    ensures number { option_map (λ p. p.0) result ≡ table_named name.now catalog.now.catalog }
    ensures schema { IfSome result (λ p. p.1.now ≡ table_schema (Some p.0) catalog.now.catalog) }
    ensures valid { IfSome result (λ p. IsSchema p.1.now.columns p.1.now.tags) }
{
    let number = catalog.find_table(name)?;
    catalog.is_valid();
    Some((number, catalog.schema_of(number)))
}

// Why an INSERT into or a DELETE from what a name names is refused, if it is no table's.
pub(crate) fn written_cause(name: &Name, catalog: &Catalog) -> Option<Cause>
    ensures { result ≡ written_cause name.now catalog.now.catalog }
{
    if !is_taken(name, catalog) {
        return Some(Cause::UnknownTable);
    }
    if catalog.find_target(name).is_some() {
        return Some(Cause::TargetOfStream);
    }
    if catalog.find_stable(name).is_some() {
        return Some(Cause::NotATable);
    }
    None
}
