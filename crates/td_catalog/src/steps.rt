//! The two steps of a change: what takes memory, and what then takes none.
ghost use Rattle.std.specs.Prelude.{◌≡◌, ◌<◌, ◌≤◌, ◌+◌, ◌^◌, length, [], ◌∷◌, ◌++◌, ℕ, List, None, OnOk, IfOk, filter, not, ◌==◌};
ghost use Rattle.td_model.specs.declared.history.What.{What};
ghost use Rattle.td_model.specs.declared.history.Entry.{Entry};
ghost use Rattle.td_model.specs.State.{State, newest, step};
ghost use Rattle.td_model.specs.declared.history.What.TheVariants as what;
ghost use Rattle.td_model.specs.Catalog.{stable_named, table_named, stream_named, target_named, with_what};
ghost use Rattle.td_verdict.specs.Valid.{IsValid};
ghost use Rattle.td_catalog.specs.Kept.{CanFollow, HasRoom, IsReadyFor, change_of, changed};
ghost use Rattle.td_catalog.specs.Tables.{table_of, HasParent};

use crate::catalog::{Catalog, Table};
use crate::change::{Change, Part, part_of};
use td_layer::{Name, NoMem, Seq};
use td_model::{Entry, Schema, StableDef, StreamDef, StreamEntry, What};

impl Catalog {
    /// Takes the memory that an entry needs, and gives its change, which [`Catalog::apply`] can then make without
    /// memory. The catalog stays as it is, also where there is no memory.
    pub fn prepare(&mut self, entry: &Entry) -> Result<Change, NoMem>
        requires { CanFollow entry.now.what self.old.catalog }
        ensures unchanged { self.new.catalog ≡ self.old.catalog }
        ensures change { IfOk result (λ change. change ≡ change_of entry.now.what) }
        ensures ready { IfOk result (λ change. IsReadyFor change self.new) }
    {
        self.make_room(&entry.what)?;
        let part = part_of(self.alloc, &entry.what)?;
        Ok(Change { part })
    }

    /// Makes the change that the last [`Catalog::prepare`] gave, where the next stream number wasn't set since. It
    /// takes no memory.
    pub fn apply(&mut self, change: Change)
        requires { IsReadyFor change self.old }
        ensures changed { self.new.catalog ≡ changed change self.old.catalog }
        ensures entry { (what : What) → change ≡ change_of what → self.new.catalog ≡ with_what what self.old.catalog }
        ensures after { (past : List State) (e : Entry)
            → (newest past).catalog ≡ self.old.catalog → change ≡ change_of e.what
            → self.new.catalog ≡ (step past e).catalog }
    {
        let _ = &self.alloc;
        let Change { part } = change;
        match part {
            Part::Nothing => (),
            Part::Stable { key, def } => self.add_stable(key, def),
            Part::Plain { key, name, columns } => {
                let schema = Schema {
                    columns,
                    tags: Seq::new(self.alloc),
                };
                let tags = Seq::new(self.alloc);
                self.add_table(
                    key,
                    Table {
                        name,
                        parent: None,
                        schema,
                        tags,
                    },
                )
            }
            Part::Sub {
                key,
                name,
                stable,
                tags,
            } => {
                let schema = Schema {
                    columns: Seq::new(self.alloc),
                    tags: Seq::new(self.alloc),
                };
                self.add_table(
                    key,
                    Table {
                        name,
                        parent: Some(stable),
                        schema,
                        tags,
                    },
                )
            }
            Part::Stream { key, target, def } => self.add_stream(key, target, def),
            Part::Dropped(number) => self.drop_stream(number),
        }
    }

    /// Makes `next` the number that the next stream gets. It changes nothing else, and takes no memory.
    pub fn skip_to(&mut self, next: u32)
        requires { self.old.catalog.next_stream ≤ next }
        ensures { self.new ≡ record self.old { catalog = record self.old.catalog { next_stream = next } } }
    {
        self.next_stream = next;
    }

    // Makes room for what an entry adds.
    fn make_room(&mut self, what: &What) -> Result<(), NoMem>
        ensures unchanged { self.new.catalog ≡ self.old.catalog }
        ensures room { OnOk result (HasRoom what.now self.new) }
    {
        match what {
            What::MakeStable { .. } => {
                self.groups.make_room()?;
                self.stables.reserve(1)?;
            }
            What::MakeTable { .. } | What::MakeSub { .. } => {
                self.groups.make_room()?;
                self.tables.reserve(1)?;
            }
            What::MakeStream(_) => {
                self.streams.reserve(1)?;
                self.targets.reserve(1)?;
            }
            _ => (),
        }
        Ok(())
    }

    // Adds a supertable.
    fn add_stable(&mut self, key: Vec<u8>, def: StableDef)
        requires key { key.items ≡ def.name }
        requires free { stable_named def.name self.old.catalog ≡ None }
        requires count { length self.old.catalog.stables + 1 < 2 ^ 32 }
        requires valid { IsValid (record self.old.catalog { stables = self.old.catalog.stables ++ def ∷ [] }) }
        requires room { 0 < self.old.stable_room }
        ensures { self.new.catalog ≡ record self.old.catalog { stables = self.old.catalog.stables ++ def ∷ [] } }
    {
        self.groups.add_group();
        self.stables.insert(key, def).unwrap();
    }

    // Adds a table.
    fn add_table(&mut self, key: Vec<u8>, table: Table)
        requires key { key.items ≡ table.name }
        requires free { table_named table.name self.old.catalog ≡ None }
        requires parent { HasParent (length self.old.catalog.stables) table table.parent }
        requires count { length self.old.catalog.tables + 1 < 2 ^ 32 }
        requires valid { IsValid (record self.old.catalog { tables = self.old.catalog.tables ++ table_of table ∷ [] }) }
        requires room { 0 < self.old.table_room }
        ensures { self.new.catalog ≡ record self.old.catalog
            { tables = self.old.catalog.tables ++ table_of table ∷ [] } }
    {
        let number = self.tables.len() as u32 + 1;
        self.groups.add(table.parent, number);
        self.tables.insert(key, table).unwrap();
    }

    // Adds a stream.
    fn add_stream(&mut self, key: Vec<u8>, target: Vec<u8>, def: StreamDef)
        requires key { key.items ≡ def.name }
        requires target { target.items ≡ def.target }
        requires free { stream_named def.name self.old.catalog ≡ None }
        requires target_free { target_named def.target self.old.catalog ≡ None }
        requires count { self.old.catalog.next_stream + 1 < 2 ^ 32 }
        requires valid { IsValid (with_what (what.MakeStream def) self.old.catalog) }
        requires room { 0 < self.old.stream_room }
        ensures { self.new.catalog ≡ with_what (what.MakeStream def) self.old.catalog }
    {
        let number = self.next_stream;
        self.next_stream += 1;
        self.streams
            .insert(key, StreamEntry { number, def })
            .unwrap();
        self.targets.insert(target, number).unwrap();
    }

    // Drops the stream of a number.
    fn drop_stream(&mut self, number: u32)
        ensures { self.new.catalog ≡ with_what (what.DropStream number) self.old.catalog }
    {
        self.streams.retain(
            |_key: &Vec<u8>, entry: &mut StreamEntry| -> bool
                ensures { (result ≡ not (entry.old.number == number)) × (entry.new ≡ entry.old) }
            { entry.number != number },
        );
        self.targets.retain(
            |_key: &Vec<u8>, of: &mut u32| -> bool
                ensures { (result ≡ not (of.old == number)) × (of.new ≡ of.old) }
            { *of != number },
        );
    }
}
