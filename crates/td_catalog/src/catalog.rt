//! The catalog: what it keeps, and what it lends of it.
ghost use Rattle.std.specs.Prelude.{◌≡◌, ◌<◌, ◌≤◌, ◌+◌, ◌-◌, ◌^◌, length, slice_get, Some, IfSome, is_some};
ghost use Rattle.std.specs.Option.{option_map, option_copied, ForSome};
ghost use Rattle.td_model.specs.Catalog.{empty_catalog, stable_named, table_named, stream_named, target_named, stable_at, table_at, schema_of};
ghost use Rattle.td_verdict.specs.Valid.{IsValid};
ghost use Rattle.td_catalog.specs.Kept.{IsNumbered};
ghost use Rattle.td_catalog.specs.Tables.{table_of, HasParent};
ghost use Rattle.td_catalog.specs.Groups.{children_of};

use crate::groups::Groups;
use indexmap::IndexMap;
use std::alloc::Global;
use std::marker::Model;
use td_layer::{Cell, Name, Seq};
use td_model::{Schema, StableDef, StreamDef, StreamEntry};

// A table as it is kept. A plain table has a schema without tags, and a subtable, whose schema is its supertable's, an
// empty one.
#[derive(Drop)]
pub(crate) struct Table {
    pub(crate) name: Name,
    pub(crate) parent: Option<u32>,
    pub(crate) schema: Schema,
    pub(crate) tags: Seq<Cell>,
}

/// Supertables and tables, numbered from 1 in the order of their creation, the live streams in that order, and the
/// number that the next stream gets. Contracts see the catalog that it keeps, and the room that it has.
#[derive(Drop)]
pub struct Catalog {
    pub(crate) alloc: Global,
    pub(crate) stables: IndexMap<Vec<u8>, StableDef>,
    pub(crate) tables: IndexMap<Vec<u8>, Table>,
    // the subtables of each supertable
    pub(crate) groups: Groups,
    pub(crate) streams: IndexMap<Vec<u8>, StreamEntry>,
    // the number of the stream of each target, in the order of the streams
    pub(crate) targets: IndexMap<Vec<u8>, u32>,
    pub(crate) next_stream: u32,
}

impl Model for Catalog {
    ghost use Rattle.td_catalog.specs.Kept.{Kept};

    ghost Value = { Kept };

    ghost use Rattle.td_catalog.specs.Inside.{kept_of, IsInOrder};

    ghost view = { kept_of };

    ghost invariant = { IsInOrder };
}

// The number of what stands at a place, from 0.
fn number_at(place: Option<usize>) -> Option<u32>
    requires { ForSome place (λ i. i + 1 < 2 ^ 32) }
    ensures { result ≡ option_map (λ i. i + 1) place }
{
    match place {
        None => None,
        Some(i) => Some(i as u32 + 1),
    }
}

// The number of a stream.
fn number_of(entry: Option<&StreamEntry>) -> Option<u32>
    ensures { result ≡ option_map (λ e. e.number) (option_copied entry.entry) }
{
    match entry {
        None => None,
        Some(entry) => Some(entry.number),
    }
}

impl Catalog {
    /// The catalog without a supertable, a table or a stream. It takes no memory.
    pub fn empty(alloc: Global) -> Catalog
        ensures { result.catalog ≡ empty_catalog }
    {
        Catalog {
            alloc,
            stables: IndexMap::new(alloc),
            tables: IndexMap::new(alloc),
            groups: Groups::empty(alloc),
            streams: IndexMap::new(alloc),
            targets: IndexMap::new(alloc),
            next_stream: 1,
        }
    }

    /// The catalog is valid: names are apart, each schema is well formed, and each subtable has a cell for each tag of
    /// its supertable. It does nothing.
    pub fn is_valid(&self)
        ensures { IsValid self.now.catalog }
    {
        let _ = &self.alloc;
    }

    /// The number of the table of a name.
    pub fn find_table(&self, name: &Name) -> Option<u32>
        ensures { result ≡ table_named name.now self.now.catalog }
    {
        number_at(self.tables.get_index_of(name.as_slice()))
    }

    /// The number of the supertable of a name.
    pub fn find_stable(&self, name: &Name) -> Option<u32>
        ensures { result ≡ stable_named name.now self.now.catalog }
    {
        number_at(self.stables.get_index_of(name.as_slice()))
    }

    /// The number of the live stream of a name.
    pub fn find_stream(&self, name: &Name) -> Option<u32>
        ensures { result ≡ stream_named name.now self.now.catalog }
    {
        number_of(self.streams.get(name.as_slice()))
    }

    /// The number of the live stream whose target has a name.
    pub fn find_target(&self, name: &Name) -> Option<u32>
        ensures { result ≡ target_named name.now self.now.catalog }
    {
        self.targets.get(name.as_slice()).copied()
    }

    /// The schema of the table of a number. A plain table has its columns and no tags, a subtable the schema of its
    /// supertable.
    pub fn schema_of(&self, table: u32) -> &Schema
        requires { IsNumbered table (length self.now.catalog.tables) }
        ensures { option_map (schema_of self.now.catalog) (table_at table self.now.catalog) ≡ Some result.now }
    {
        let kept = self.table_at(table);
        match kept.parent {
            None => &kept.schema,
            Some(stable) => self.stable_schema(stable),
        }
    }

    /// The name of the table of a number.
    pub fn name_of(&self, table: u32) -> &Name
        requires { IsNumbered table (length self.now.catalog.tables) }
        ensures { option_map (λ t. t.name) (table_at table self.now.catalog) ≡ Some result.now }
    {
        &self.table_at(table).name
    }

    /// The number of the supertable of a subtable, or none of a plain table.
    pub fn parent_of(&self, table: u32) -> Option<u32>
        requires { IsNumbered table (length self.now.catalog.tables) }
        ensures { option_map (λ t. t.parent) (table_at table self.now.catalog) ≡ Some result }
    {
        self.table_at(table).parent
    }

    /// The tags of a subtable. A plain table has none.
    pub fn tags_of(&self, table: u32) -> &Seq<Cell>
        requires { IsNumbered table (length self.now.catalog.tables) }
        ensures { option_map (λ t. t.tags) (table_at table self.now.catalog) ≡ Some result.now }
    {
        &self.table_at(table).tags
    }

    /// The name of the supertable of a number.
    pub fn stable_name(&self, stable: u32) -> &Name
        requires { IsNumbered stable (length self.now.catalog.stables) }
        ensures { option_map (λ s. s.name) (stable_at stable self.now.catalog) ≡ Some result.now }
    {
        &self.stable_at(stable).name
    }

    /// The schema of the supertable of a number.
    pub fn stable_schema(&self, stable: u32) -> &Schema
        requires { IsNumbered stable (length self.now.catalog.stables) }
        ensures { option_map (λ s. s.schema) (stable_at stable self.now.catalog) ≡ Some result.now }
    {
        &self.stable_at(stable).schema
    }

    /// The numbers of the subtables of a supertable, rising: of exactly those tables whose supertable it is.
    pub fn subtables_of(&self, stable: u32) -> &[u32]
        requires { IsNumbered stable (length self.now.catalog.stables) }
        ensures { result.now ≡ children_of stable self.now.catalog.tables }
    {
        self.groups.of(stable)
    }

    /// How many tables there are.
    pub fn tables(&self) -> u32
        ensures { result ≡ length self.now.catalog.tables }
    {
        self.tables.len() as u32
    }

    /// How many supertables there are.
    pub fn stables(&self) -> u32
        ensures { result ≡ length self.now.catalog.stables }
    {
        self.stables.len() as u32
    }

    /// How many live streams there are.
    pub fn streams(&self) -> u32
        ensures { result ≡ length self.now.catalog.streams }
    {
        self.streams.len() as u32
    }

    /// The number that the next stream gets.
    pub fn next_stream(&self) -> u32
        ensures { result ≡ self.now.catalog.next_stream }
    {
        self.next_stream
    }

    /// The number and the definition of the live stream at a place, from 0.
    pub fn stream_at(&self, k: u32) -> (u32, &StreamDef)
        requires { k < length self.now.catalog.streams }
        ensures { slice_get self.now.catalog.streams k ≡ Some (record { number = result.0; def = result.1.now }) }
    {
        let (_, entry) = self.streams.get_index(k as usize).unwrap();
        (entry.number, &entry.def)
    }

    // The table of a number, as it is kept.
    fn table_at(&self, table: u32) -> &Table
        requires { IsNumbered table (length self.now.catalog.tables) }
        ensures table { table_at table self.now.catalog ≡ Some (table_of result.now) }
        ensures parent { HasParent (length self.now.catalog.stables) result.now result.now.parent }
    {
        let (_, kept) = self.tables.get_index(table as usize - 1).unwrap();
        kept
    }

    // The supertable of a number.
    fn stable_at(&self, stable: u32) -> &StableDef
        requires { IsNumbered stable (length self.now.catalog.stables) }
        ensures { stable_at stable self.now.catalog ≡ Some result.now }
    {
        let (_, kept) = self.stables.get_index(stable as usize - 1).unwrap();
        kept
    }
}
