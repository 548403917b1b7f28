//! A head of the state.
ghost use Rattle.std.specs.Prelude.{◌≡◌, ◌<◌, ◌≤◌, ◌+◌, ◌-◌, [], length, slice_get, true, Some, IfOk};
ghost use Rattle.td_catalog.specs.Kept.{IsNumbered};
ghost use Rattle.td_manifest.specs.Heads.{head_body};
ghost use Rattle.td_manifest.specs.States.{state_of_head};
ghost use Rattle.td_state.specs.Heads.{stable_heads, table_heads, FitsHead};
ghost use Rattle.td_state.specs.Held.{headed};

use crate::contents::Contents;
use crate::tables::Tables;
use std::alloc::Global;
use td_catalog::Catalog;
use td_layer::{Copied, NoMem, Seq};
use td_manifest::{Head, HeadStable, HeadTable};

// The supertable of a number.
fn stable_head(catalog: &Catalog, contents: &Contents, number: u32) -> Result<HeadStable, NoMem>
    requires there { IsNumbered number (length catalog.now.catalog.stables) }
    requires count { length contents.now.kept.greatest.stables ≡ length catalog.now.catalog.stables }
    ensures { IfOk result (λ stable. slice_get
        (stable_heads catalog.now.catalog.stables contents.now.kept.greatest.stables) (number - 1) ≡ Some stable) }
{
    let name = catalog.stable_name(number).copy()?;
    let schema = catalog.stable_schema(number).copy()?;
    let latest = contents.stable_latest(number - 1);
    Ok(HeadStable {
        name,
        schema,
        latest,
    })
}

// The supertables.
fn stable_heads(
    alloc: Global,
    catalog: &Catalog,
    contents: &Contents,
) -> Result<Seq<HeadStable>, NoMem>
    requires { length contents.now.kept.greatest.stables ≡ length catalog.now.catalog.stables }
    ensures { IfOk result (λ stables. stables
        ≡ stable_heads catalog.now.catalog.stables contents.now.kept.greatest.stables) }
{
    let mut stables = Seq::new(alloc);
    for place in 0..catalog.stables() {
        let stable = stable_head(catalog, contents, place + 1)?;
        stables.add(stable)?;
    }
    Ok(stables)
}

// The table of a number.
fn table_head(catalog: &Catalog, contents: &Contents, number: u32) -> Result<HeadTable, NoMem>
    requires there { IsNumbered number (length catalog.now.catalog.tables) }
    requires count { length contents.now.kept.greatest.tables ≡ length catalog.now.catalog.tables }
    ensures { IfOk result (λ table. slice_get
        (table_heads catalog.now.catalog.tables contents.now.kept.greatest.tables) (number - 1) ≡ Some table) }
{
    let name = catalog.name_of(number).copy()?;
    match catalog.parent_of(number) {
        None => {
            let columns = catalog.schema_of(number).columns.copy()?;
            let latest = contents.table_latest(number - 1);
            Ok(HeadTable::Plain {
                name,
                columns,
                latest,
            })
        }
        Some(stable) => {
            let tags = catalog.tags_of(number).copy()?;
            Ok(HeadTable::Sub { name, stable, tags })
        }
    }
}

// The tables.
fn table_heads(
    alloc: Global,
    catalog: &Catalog,
    contents: &Contents,
) -> Result<Seq<HeadTable>, NoMem>
    requires { length contents.now.kept.greatest.tables ≡ length catalog.now.catalog.tables }
    ensures { IfOk result (λ tables. tables
        ≡ table_heads catalog.now.catalog.tables contents.now.kept.greatest.tables) }
{
    let mut tables = Seq::new(alloc);
    for place in 0..catalog.tables() {
        let table = table_head(catalog, contents, place + 1)?;
        tables.add(table)?;
    }
    Ok(tables)
}

impl Tables {
    /// A head of the state, with the number of the first log, without file sets and streams. It fits the rules of heads
    /// where the names and texts of the catalog do, and a version came to be.
    pub fn head(&self, first_log: u64) -> Result<Head, NoMem>
        ensures state { IfOk result (λ h. state_of_head h [] ≡ headed self.now.state) }
        ensures sets { IfOk result (λ h. h.sets ≡ []) }
        ensures streams { IfOk result (λ h. h.streams ≡ []) }
        ensures first_log { IfOk result (λ h. h.first_log ≡ first_log) }
        ensures fits { self.now.state.halt ≡ None → FitsHead self.now.state.catalog → 1 ≤ first_log
            → first_log ≤ self.now.state.version + 1 → 0 < self.now.state.version
            → IfOk result (λ h. head_body.fits h ≡ true) }
    {
        let stables = stable_heads(self.alloc, &self.catalog, &self.contents)?;
        let tables = table_heads(self.alloc, &self.catalog, &self.contents)?;
        Ok(Head {
            version: self.version,
            moment: self.moment,
            first_log,
            edge: self.contents.edge(),
            stables,
            tables,
            sets: Seq::new(self.alloc),
            next_stream: self.catalog.next_stream(),
            streams: Seq::new(self.alloc),
        })
    }
}
