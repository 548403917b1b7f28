//! The state of a head.
ghost use Rattle.std.specs.Prelude.{◌≡◌, ◌≤◌, [], ◌∷◌, true, IfOk, OnOk};
ghost use Rattle.td_limits.specs.declared.limits.TheConstants.{LAST_DAY_RANGE, LAST_TIMESTAMP, LAST_VERSION};
ghost use Rattle.td_model.specs.declared.history.What.TheVariants as whats;
ghost use Rattle.td_model.specs.State.{step, empty_state};
ghost use Rattle.td_manifest.specs.declared.head.HeadTable.TheVariants as heads;
ghost use Rattle.td_manifest.specs.Heads.{head_body};
ghost use Rattle.td_manifest.specs.States.{state_of_head, table_latest};
ghost use Rattle.td_state.specs.Heads.{making, entry_making, made_of, with_numbers, with_stable, with_table, FitStables, FitTables};
ghost use Rattle.td_state.specs.Held.{bare, CanTake};
ghost use Rattle.td_state.specs.Latest.{IsInTime};

use crate::tables::Tables;
use std::alloc::Global;
use td_layer::{Copied, Name, NoMem, Seq};
use td_manifest::{Head, HeadStable, HeadTable};
use td_model::{Column, Entry, What};

impl Tables {
    /// The state of a head without streams, but for its rows.
    pub fn of_head(alloc: Global, head: &Head) -> Result<Tables, NoMem>
        requires fits { head_body.fits head.now ≡ true }
        requires streams { head.now.streams ≡ [] }
        ensures { IfOk result (λ tables. tables.state ≡ state_of_head head.now []) }
    {
        let mut tables = Tables::new(alloc);
        tables.add_stables(head.stables.as_slice())?;
        tables.add_tables(head)?;
        tables.set_numbers(head);
        Ok(tables)
    }

    // Makes a supertable or a table.
    fn make(&mut self, what: What) -> Result<(), NoMem>
        requires { CanTake what self.old.state }
        ensures { OnOk result (self.new.state ≡ bare (step (self.old.state ∷ []) (entry_making what))) }
    {
        let prepared = self.prepare(Entry {
            session: 0,
            ordinal: 0,
            moment: 0,
            what,
        })?;
        self.apply(prepared);
        Ok(())
    }

    // Adds a supertable.
    fn add_stable(&mut self, stable: &HeadStable) -> Result<(), NoMem>
        requires takes { CanTake (whats.MakeStable stable.now.name stable.now.schema) self.old.state }
        requires latest { IsInTime stable.now.latest }
        ensures { OnOk result (self.new.state ≡ with_stable stable.now self.old.state) }
    {
        let name = stable.name.copy()?;
        let schema = stable.schema.copy()?;
        self.make(What::MakeStable { name, schema })?;
        self.contents.set_stable_latest(stable.latest);
        Ok(())
    }

    // Adds a plain table.
    fn add_plain(
        &mut self,
        name: &Name,
        columns: &Seq<Column>,
        latest: Option<u64>,
    ) -> Result<(), NoMem>
        requires takes { CanTake (whats.MakeTable name.now columns.now) self.old.state }
        requires latest { IsInTime latest }
        ensures { OnOk result (self.new.state ≡ with_table (heads.Plain name.now columns.now latest) self.old.state) }
    {
        let name = name.copy()?;
        let columns = columns.copy()?;
        self.make(What::MakeTable { name, columns })?;
        self.contents.set_table_latest(latest);
        Ok(())
    }

    // Adds a table.
    fn add_table(&mut self, table: &HeadTable) -> Result<(), NoMem>
        requires takes { CanTake (making table.now) self.old.state }
        requires latest { IsInTime (table_latest table.now) }
        ensures { OnOk result (self.new.state ≡ with_table table.now self.old.state) }
    {
        match table {
            HeadTable::Plain {
                name,
                columns,
                latest,
            } => self.add_plain(name, columns, *latest)?,
            HeadTable::Sub { name, stable, tags } => {
                let name = name.copy()?;
                let tags = tags.copy()?;
                self.make(What::MakeSub {
                    name,
                    stable: *stable,
                    tags,
                })?;
            }
        }
        Ok(())
    }

    // Adds the supertables of a head to the empty state.
    fn add_stables(&mut self, stables: &[HeadStable]) -> Result<(), NoMem>
        requires fits { FitStables stables.now }
        requires empty { self.old.state ≡ empty_state }
        ensures { OnOk result (self.new.state ≡ made_of stables.now []) }
    {
        for stable in stables {
            self.add_stable(stable)?;
        }
        Ok(())
    }

    // Adds the tables of a head to the state that its supertables make.
    fn add_tables(&mut self, head: &Head) -> Result<(), NoMem>
        requires fits { FitTables head.now.stables head.now.tables }
        requires stables { self.old.state ≡ made_of head.now.stables [] }
        ensures { OnOk result (self.new.state ≡ made_of head.now.stables head.now.tables) }
    {
        let tables = head.tables.as_slice();
        for table in tables {
            self.add_table(table)?;
        }
        Ok(())
    }

    // Gives the state the numbers of a head.
    fn set_numbers(&mut self, head: &Head)
        requires version { head.now.version ≤ LAST_VERSION }
        requires moment { head.now.moment ≤ LAST_TIMESTAMP }
        requires edge { head.now.edge ≤ LAST_DAY_RANGE }
        requires next { self.old.state.catalog.next_stream ≤ head.now.next_stream }
        ensures { self.new.state ≡ with_numbers head.now self.old.state }
    {
        self.version = head.version;
        self.moment = head.moment;
        self.contents.set_edge(head.edge);
        self.catalog.skip_to(head.next_stream);
        self.catalog.is_valid();
    }
}
