//! The state in memory.
ghost use Rattle.std.specs.Prelude.{◌≡◌, ◌<◌, ◌≤◌, ◌+◌, ◌^◌, [], ◌∷◌, IfOk, IsTrue, None, Some, false};
ghost use Rattle.std.specs.List.Sorted.{IsStrictlySortedBy};
ghost use Rattle.std.specs.Ordering.{nat_cmp};
ghost use Rattle.td_model.specs.declared.language.Query.{Query};
ghost use Rattle.td_model.specs.Built.{is_write, is_built};
ghost use Rattle.td_model.specs.State.{step, empty_state};
ghost use Rattle.td_catalog.specs.Kept.{change_of, IsReadyFor};
ghost use Rattle.td_verdict.specs.Sound.{IsSound, IsSoundPlan, IsBounded, has_now};
ghost use Rattle.td_verdict.specs.Queries.{query_verdict};
ghost use Rattle.td_verdict.specs.Plans.{plan_of};
ghost use Rattle.td_verdict.specs.Answers.{header};
ghost use Rattle.td_bind.specs.Answers.{verdict_of, query_verdict_of};
ghost use Rattle.td_told.specs.Journal.{halt_at};
ghost use Rattle.td_told.specs.Verdict.{reads_clock, closed_cause, entry_verdict, verdict};
ghost use Rattle.td_state.specs.Contents.{part_of, HasRoomBeside};
ghost use Rattle.td_state.specs.Kinds.{all_kinds, with_kinds};
ghost use Rattle.td_state.specs.Held.{bare, catalog_held, CanTake, IsReady};

use crate::contents::{Contents, Part};
use crate::kinds::{all_kinds, kinds_by_table};
use crate::prepared::Prepared;
use std::alloc::Global;
use std::collections::BTreeMap;
use std::marker::Model;
use td_bind::{bind_query, bind_write};
use td_catalog::{Catalog, Change};
use td_fields::header;
use td_layer::{Copied, Name, NoMem, Seq};
use td_limits::{LAST_TIMESTAMP, LAST_VERSION};
use td_model::{Cause, Entry, Kind, Plan, Query, Stmt, What};

/// The state of a database in memory, but for its rows. Contracts see the state, whose list of rows is empty, and how
/// much it takes without further memory.
///
/// An entry is taken in by two steps, between which it can be written to a log: [`Tables::prepare`] takes all the
/// memory that it needs and changes nothing that is seen of the state, and [`Tables::apply`] then takes none.
#[derive(Drop)]
pub struct Tables {
    pub(crate) alloc: Global,
    pub(crate) version: u64,
    pub(crate) moment: u64,
    pub(crate) catalog: Catalog,
    pub(crate) contents: Contents,
}

impl Model for Tables {
    ghost use Rattle.td_state.specs.Contents.{IsRight};
    ghost use Rattle.td_state.specs.Kinds.{all_kinds, with_kinds};
    ghost use Rattle.td_state.specs.Held.{Held, held_of};

    ghost Value = { Held };

    ghost view = { λ s. held_of s.version s.moment s.catalog s.contents };

    ghost invariant = { λ s. IsRight s.version s.moment s.catalog.catalog s.contents.kept };
}

impl Tables {
    /// The empty state: no table, version 0. It takes no memory.
    pub fn new(alloc: Global) -> Tables
        ensures { result.state ≡ empty_state }
    {
        Tables {
            alloc,
            version: 0,
            moment: 0,
            catalog: Catalog::empty(alloc),
            contents: Contents::new(alloc),
        }
    }

    /// The version of the state: that of the last entry.
    pub fn version(&self) -> u64
        ensures { result ≡ self.now.state.version }
    {
        self.version
    }

    /// The moment of the last entry, in milliseconds since 1970.
    pub fn moment(&self) -> u64
        ensures { result ≡ self.now.state.moment }
    {
        self.moment
    }

    /// The retention edge, a number of day ranges.
    pub fn edge(&self) -> u32
        ensures { result ≡ self.now.state.edge }
    {
        self.contents.edge()
    }

    /// The version of the halt, if there is one. Where there is none, the version of the state can stand in a head.
    pub fn halt(&self) -> Option<u64>
        ensures halt { result ≡ self.now.state.halt }
        ensures last { self.now.state.halt ≡ None → self.now.state.version ≤ LAST_VERSION }
    {
        self.contents.halt()
    }

    /// The state is sound: its catalog is valid, and it has no rows that could break a rule. It does nothing.
    pub fn is_sound(&self)
        ensures { IsSound self.now.state }
    {
        let _ = &self.alloc;
    }

    // Why the state takes no write, whatever it says.
    fn closed_cause(&self) -> Option<Cause>
        ensures { result ≡ closed_cause self.now.state }
    {
        if let Some(version) = self.contents.halt() {
            return Some(Cause::Stopped { version });
        }
        if LAST_VERSION <= self.version {
            return Some(Cause::TooManyVersions);
        }
        None
    }

    // What a write that is built meets.
    fn judge_write(&self, stmt: &Stmt, moment: u64) -> Result<Result<(What, u32), Cause>, NoMem>
        requires write { IsTrue (is_write stmt.now) }
        requires built { IsTrue (is_built stmt.now) }
        requires moment { moment ≤ LAST_TIMESTAMP }
        ensures verdict { IfOk result (λ answer. verdict_of answer ≡ entry_verdict stmt.now self.now.state moment) }
        ensures takes { IfOk result (λ answer. IfOk answer (λ accepted. CanTake accepted.0 self.now.state)) }
    {
        if let Some(cause) = self.closed_cause() {
            return Ok(Err(cause));
        }
        let edge = self.contents.edge();
        let answer = bind_write(self.alloc, stmt, &self.catalog, edge, moment)?;
        Ok(answer)
    }

    /// What a write, or a text that is no statement, meets at a moment in milliseconds since 1970: it is accepted, with
    /// what its entry does and its count of rows, or refused with the first cause that applies. The state can take what
    /// is accepted.
    pub fn judge(&self, stmt: &Stmt, moment: u64) -> Result<Result<(What, u32), Cause>, NoMem>
        requires clock { IsTrue (reads_clock stmt.now) }
        requires moment { moment ≤ LAST_TIMESTAMP }
        ensures verdict { IfOk result (λ answer. verdict_of answer ≡ verdict stmt.now self.now.state [] moment) }
        ensures takes { IfOk result (λ answer. IfOk answer (λ accepted. CanTake accepted.0 self.now.state)) }
    {
        if let Stmt::Wrong(cause) = stmt {
            let cause = cause.copy()?;
            return Ok(Err(cause));
        }
        if !stmt.is_built() {
            return Ok(Err(Cause::OptionNotBuilt));
        }
        let answer = self.judge_write(stmt, moment)?;
        Ok(answer)
    }

    // Takes the memory that an entry needs.
    fn make_room(&mut self, entry: &Entry) -> Result<(Change, Part), NoMem>
        requires { CanTake entry.now.what self.old.state }
        ensures state { self.new.state ≡ self.old.state }
        ensures change { IfOk result (λ made. made.0 ≡ change_of entry.now.what) }
        ensures ready { IfOk result (λ made. IsReadyFor made.0 (catalog_held self.new)) }
        ensures part { IfOk result (λ made. made.1 ≡ part_of entry.now.what self.new.state.catalog) }
        ensures room { IfOk result (λ _. HasRoomBeside entry.now.what self.new.beside) }
    {
        let change = self.catalog.prepare(entry)?;
        let part = self.contents.prepare(&self.catalog, entry)?;
        Ok((change, part))
    }

    /// Takes the memory that an entry needs, and gives what [`Tables::apply`] can then take in without memory. The
    /// state stays as it is, also where there is no memory.
    pub fn prepare(&mut self, entry: Entry) -> Result<Prepared, NoMem>
        requires takes { CanTake entry.what self.old.state }
        requires moment { entry.moment ≤ LAST_TIMESTAMP }
        ensures state { self.new.state ≡ self.old.state }
        ensures entry { IfOk result (λ prepared. prepared.entry ≡ entry) }
        ensures ready { IfOk result (λ prepared. IsReady prepared self.new) }
    {
        let (change, part) = self.make_room(&entry)?;
        Ok(Prepared {
            entry,
            change,
            part,
        })
    }

    /// Takes in an entry that is prepared: the state is then the one that the entry makes of it, but for its rows. It
    /// takes no memory.
    pub fn apply(&mut self, prepared: Prepared)
        requires { IsReady prepared self.old }
        ensures { self.new.state ≡ bare (step (self.old.state ∷ []) prepared.entry) }
    {
        let Prepared {
            entry,
            change,
            part,
        } = prepared;
        self.contents
            .apply(&self.catalog, self.version + 1, &entry, part);
        self.catalog.apply(change);
        self.version += 1;
        self.moment = entry.moment;
    }

    /// Takes in a halt, which is of no session, at a moment in milliseconds since 1970: from then on no write is
    /// accepted. It takes no memory.
    pub fn stop(&mut self, moment: u64)
        requires version { self.old.state.version ≤ LAST_VERSION }
        requires moment { moment ≤ LAST_TIMESTAMP }
        ensures { self.new.state ≡ bare (step (self.old.state ∷ []) (halt_at moment)) }
    {
        self.version += 1;
        self.moment = moment;
        self.contents.stop(self.version);
    }

    /// What a query meets: it passes with its plan, or is refused with the first cause that applies. The numbers of the
    /// tables of the plan rise. The plan of a query without NOW is sound. It can be answered in any case: its
    /// timestamps end in the range of time, and its interval has durations in their bounds.
    pub fn plan(&self, query: &Query) -> Result<Result<Plan, Cause>, NoMem>
        ensures verdict { IfOk result (λ answer. query_verdict_of answer
            ≡ query_verdict query.now self.now.state.catalog) }
        ensures plan { IfOk result (λ answer. IfOk answer (λ plan. plan ≡ plan_of query.now self.now.state.catalog)) }
        ensures rising { IfOk result (λ answer. IfOk answer (λ plan. IsStrictlySortedBy nat_cmp plan.tables)) }
        ensures sound { has_now query.now ≡ false → IfOk result (λ answer. IfOk answer IsSoundPlan) }
        ensures bounded { IfOk result (λ answer. IfOk answer IsBounded) }
    {
        let answer = bind_query(self.alloc, query, &self.catalog, self.contents.index())?;
        Ok(answer)
    }

    /// The header of the answer of a plan.
    pub fn header(&self, plan: &Plan) -> Result<Seq<Name>, NoMem>
        ensures { (q : Query) → plan.now ≡ plan_of q self.now.state.catalog
            → IfOk result (λ names. names ≡ header q self.now.state.catalog) }
    {
        let names = header(self.alloc, plan)?;
        Ok(names)
    }

    /// The kinds of the columns behind the timestamp of each table, by number, from 1.
    pub fn kinds(&self) -> Result<Seq<Seq<Kind>>, NoMem>
        ensures { IfOk result (λ kinds. kinds ≡ all_kinds self.now.state.catalog) }
    {
        let kinds = all_kinds(self.alloc, &self.catalog)?;
        Ok(kinds)
    }

    /// The kinds of the columns behind the timestamp of each table that a plan reads, by number. The numbers of the
    /// tables of the plan rise, as those that [`Tables::plan`] gives do.
    pub fn plan_kinds(&self, plan: &Plan) -> Result<BTreeMap<u32, Seq<Kind>>, NoMem>
        requires { IsStrictlySortedBy nat_cmp plan.now.tables }
        ensures { IfOk result (λ kinds. kinds.entries ≡ with_kinds self.now.state.catalog plan.now.tables) }
    {
        let kinds = kinds_by_table(self.alloc, &self.catalog, plan.tables.as_slice())?;
        Ok(kinds)
    }
}
