//! Pinning a query: its answer over the state of one version, whatever comes after.
ghost use Rattle.std.specs.Prelude.{◌≡◌, ◌+◌, ◌<◌, ◌^◌, ℕ, List, take, drop, length, IfOk, IfErr, OnErr};
ghost use Rattle.td_model.specs.declared.history.Entry.{Entry as AnEntry};
ghost use Rattle.td_model.specs.declared.history.Verdict.TheVariants.{Pass, Refuse};
ghost use Rattle.td_model.specs.declared.language.Query.{Query as AQuery};
ghost use Rattle.td_model.specs.declared.report.Cause.{Cause as ACause};
ghost use Rattle.td_model.specs.State.{State, after};
ghost use Rattle.td_verdict.specs.Answered.{answer};
ghost use Rattle.td_verdict.specs.Answers.{header};
ghost use Rattle.td_verdict.specs.Plans.{plan_of};
ghost use Rattle.td_verdict.specs.Sound.{IsBounded, IsSound};
ghost use Rattle.td_core.specs.CoreState.{seen};
ghost use Rattle.td_core.specs.Covers.{FactsAre, RowsAre};
ghost use Rattle.td_core.specs.Pins.{PinnedQuery, Sees, Holds, met};

use crate::kept::Core;
use std::alloc::Global;
use std::marker::Model;
use std::sync::ledger::Ledger;
use td_answer::answer as row_answer;
use td_layer::{Cell, Name, NoMem, Roomy, ScanFault, Seq, Steps};
use td_model::{Cause, Plan, Query};
use td_outside::{Clock, Store};
use td_query::answer as grouped_answer;
use td_rows::RowView;
use td_tables::Tables;

/// Room for the readers that a pin takes, a slot each. It is spent by [`Room::done`]. Contracts see the number of its
/// slots; none of them is taken.
pub struct Room<S: Store> {
    slots: u32,
    readers: Roomy<S::Reader>,
}

impl<S: Store> Model for Room<S> {
    ghost use Rattle.std.specs.Prelude.{◌≡◌, ◌≤◌, ℕ, []};

    ghost Value = { ℕ };

    ghost view = { λ r. r.slots };

    ghost invariant = { λ r. (r.readers.items ≡ []) × (r.slots ≤ r.readers.spare) };
}

impl<S: Store> Room<S> {
    /// Room of so many slots.
    pub fn new(alloc: Global, files: u32) -> Result<Room<S>, NoMem>
        ensures { IfOk result (λ room. room ≡ files) }
    {
        let mut readers = Roomy::new(alloc);
        match readers.reserve(files as usize) {
            Ok(()) => Ok(Room {
                slots: files,
                readers,
            }),
            Err(NoMem) => {
                readers.done();
                Err(NoMem)
            }
        }
    }

    /// Ends a room.
    pub fn done(self) {
        let Room { slots: _, readers } = self;
        readers.done();
    }
}

/// A query that sees the state of one version, with the rows of its answer that weren't given yet. It takes no part in
/// what happens to the core after it. It is spent by [`Core::release`].
pub struct Pinned<S: Store> {
    alloc: Global,
    prefix: u64,
    plan: Plan,
    header: Seq<Name>,
    rows: RowView,
    given: u64,
    room: Room<S>,
}

impl<S: Store> Model for Pinned<S> {
    ghost use Rattle.td_core.specs.Pins.{PinnedQuery};
    ghost use Rattle.td_verdict.specs.Sound.{IsBounded};

    ghost Value = { PinnedQuery };

    ghost view = { λ p. record {
      prefix = p.prefix;
      plan = p.plan;
      header = p.header;
      rows = p.rows;
      given = p.given;
      slots = p.room;
    } };

    ghost invariant = { λ p. IsBounded p.plan };
}

// The part of the answer of a plan over rows that comes after those given.
fn answer_part<L: Ledger>(
    alloc: Global,
    plan: &Plan,
    rows: &mut RowView,
    given: u64,
    count: u64,
    steps: &mut Steps<L>,
) -> Result<Seq<Seq<Cell>>, ScanFault>
    requires { IsBounded plan.now }
    ensures part { (q : AQuery) (s : State) → IsSound s → plan.now ≡ plan_of q s.catalog → rows.old ≡ s.rows
        → IfOk result (λ all. all ≡ take count (drop given (answer q s))) }
    ensures few { (q : AQuery) (s : State) → IsSound s → plan.now ≡ plan_of q s.catalog → rows.old ≡ s.rows
        → IfOk result (λ all. length (answer q s) < 2 ^ 63) }
    ensures rows { rows.new ≡ rows.old }
    ensures fault { IfErr result (λ f. f ≡ ScanFault.NoMemory) }
{
    if plan.query.is_row_query() {
        let all = row_answer(alloc, plan, rows.rows(), given, count)?;
        return Ok(all);
    }
    let all = grouped_answer(alloc, plan, rows, given, count, steps)?;
    Ok(all)
}

impl<S: Store> Pinned<S> {
    /// The version of the state that it sees.
    pub fn prefix(&self) -> u64
        ensures { result ≡ self.now.prefix }
    {
        self.prefix
    }

    /// The header of the answer.
    pub fn header(&self) -> &Seq<Name>
        ensures { result.now ≡ self.now.header }
    {
        &self.header
    }

    /// The next `count` rows of the answer, or all that are left. The whole answer has fewer than 2^63 rows. No file is
    /// read so far, so only want of memory can come; it leaves the place.
    pub fn rows<L: Ledger>(
        &mut self,
        count: u64,
        steps: &mut Steps<L>,
    ) -> Result<Seq<Seq<Cell>>, ScanFault>
        ensures rows { (q : AQuery) (s : State) (i : ℕ) → Sees self.old q s i
            → IfOk result (λ rows. rows ≡ take count (drop i (answer q s))) }
        ensures moves { (q : AQuery) (s : State) (i : ℕ) → Sees self.old q s i
            → IfOk result (λ rows. Sees self.new q s (i + length rows)) }
        ensures few { (q : AQuery) (s : State) (i : ℕ) → Sees self.old q s i
            → IfOk result (λ _. length (answer q s) < 2 ^ 63) }
        ensures fault { IfErr result (λ f. f ≡ ScanFault.NoMemory) }
        ensures slots { self.new.slots ≡ self.old.slots }
        ensures failed { OnErr result (self.new ≡ self.old) }
    {
        let rows = answer_part(
            self.alloc,
            &self.plan,
            &mut self.rows,
            self.given,
            count,
            steps,
        )?;
        self.given = self.given.saturating_add(rows.len() as u64);
        Ok(rows)
    }
}

/// What became of a pin. The room comes back, unless the pinned query has it.
pub enum PinEnd<S: Store> {
    /// The query passes.
    Pinned(Pinned<S>),
    /// It is refused in the state of this version.
    Refused {
        cause: Cause,
        prefix: u64,
        room: Room<S>,
    },
    /// The plan has more files than the room has slots.
    Short {
        files: u32,
        room: Room<S>,
    },
    /// The store failed as a file was opened.
    StoreFault {
        room: Room<S>,
    },
    /// There was no memory.
    NoMemory {
        room: Room<S>,
    },
}

// What a pinned query keeps of a state.
struct View {
    plan: Plan,
    header: Seq<Name>,
    rows: RowView,
}

// The header of a plan's answer, and the rows of the state.
fn header_and_rows(tables: &Tables, plan: &Plan) -> Result<(Seq<Name>, RowView), NoMem>
    ensures header { (q : AQuery) → plan.now ≡ plan_of q tables.now.state.catalog
        → IfOk result (λ given. given.0 ≡ header q tables.now.state.catalog) }
    ensures rows { IfOk result (λ given. given.1 ≡ tables.now.state.rows) }
{
    let header = tables.header(plan)?;
    match tables.share_rows() {
        Ok(rows) => Ok((header, rows)),
        Err(NoMem) => {
            drop(header);
            Err(NoMem)
        }
    }
}

// What a query with this plan keeps of the state.
fn view_of(tables: &Tables, plan: Plan) -> Result<View, NoMem>
    ensures plan { IfOk result (λ v. v.plan ≡ plan) }
    ensures header { (q : AQuery) → plan ≡ plan_of q tables.now.state.catalog
        → IfOk result (λ v. v.header ≡ header q tables.now.state.catalog) }
    ensures rows { IfOk result (λ v. v.rows ≡ tables.now.state.rows) }
{
    match header_and_rows(tables, &plan) {
        Ok((header, rows)) => Ok(View { plan, header, rows }),
        Err(NoMem) => {
            drop(plan);
            Err(NoMem)
        }
    }
}

impl<S: Store, C: Clock> Core<S, C> {
    // What a query sees of the state, or the cause for which it is refused there.
    fn view(&self, query: &Query) -> Result<Result<View, Cause>, NoMem>
        ensures refused { IfOk result (λ answer. IfErr answer (λ cause. met query.now self.now.state ≡ Refuse cause)) }
        ensures passes { IfOk result (λ answer. IfOk answer (λ _. met query.now self.now.state ≡ Pass)) }
        ensures plan { IfOk result (λ answer. IfOk answer (λ v. v.plan ≡ plan_of query.now self.now.state.catalog)) }
        ensures header { IfOk result (λ answer. IfOk answer (λ v. v.header ≡ header query.now self.now.state.catalog)) }
        ensures rows { IfOk result (λ answer. IfOk answer (λ v. v.rows ≡ self.now.state.rows)) }
        ensures bounded { IfOk result (λ answer. IfOk answer (λ v. IsBounded v.plan)) }
        ensures sound { IsSound self.now.state }
    {
        self.tables.is_sound();
        let plan = match self.tables.plan(query)? {
            Ok(plan) => plan,
            Err(cause) => return Ok(Err(cause)),
        };
        let view = view_of(&self.tables, plan)?;
        Ok(Ok(view))
    }

    /// Pins a query: it is judged in the state as it is, and where it passes it sees that state from then on. The
    /// core stays as it is. `Short` and `StoreFault` don't come, since a store has no files so far.
    pub fn pin(&mut self, query: &Query, room: Room<S>) -> PinEnd<S>
        ensures core { self.new ≡ self.old }
        ensures passes { (p : PinnedQuery) → result ≡ PinEnd.Pinned p → met query.now self.old.state ≡ Pass }
        ensures sees { (p : PinnedQuery) → result ≡ PinEnd.Pinned p → Sees p query.now self.old.state 0 }
        ensures holds { (p : PinnedQuery) → result ≡ PinEnd.Pinned p → (b : State) (h : List AnEntry)
            → FactsAre (seen S.told S.count C.readings self.old) b h
            → RowsAre (seen S.told S.count C.readings self.old) b h
            → Holds p query.now b h p.prefix 0 }
        ensures slots { (p : PinnedQuery) → result ≡ PinEnd.Pinned p → p.slots ≡ room }
        ensures refused { (cause : ACause) (prefix back : ℕ) → result ≡ PinEnd.Refused cause prefix back
            → (met query.now self.old.state ≡ Refuse cause) × (prefix ≡ self.old.state.version) × (back ≡ room) }
        ensures short { (files back : ℕ) → result ≡ PinEnd.Short files back → ⊥ }
        ensures store_fault { (back : ℕ) → result ≡ PinEnd.StoreFault back → ⊥ }
        ensures no_memory { (back : ℕ) → result ≡ PinEnd.NoMemory back → back ≡ room }
    {
        let prefix = self.tables.version();
        match self.view(query) {
            Ok(Ok(View { plan, header, rows })) => PinEnd::Pinned(Pinned {
                alloc: self.alloc,
                prefix,
                plan,
                header,
                rows,
                given: 0,
                room,
            }),
            Ok(Err(cause)) => PinEnd::Refused {
                cause,
                prefix,
                room,
            },
            Err(NoMem) => PinEnd::NoMemory { room },
        }
    }

    /// Takes a pinned query back and gives its room. The core stays as it is.
    pub fn release(&mut self, pinned: Pinned<S>) -> Room<S>
        ensures core { self.new ≡ self.old }
        ensures room { result ≡ pinned.slots }
    {
        let Pinned {
            alloc: _,
            prefix: _,
            plan,
            header,
            rows,
            given: _,
            room,
        } = pinned;
        drop(plan);
        drop(header);
        drop(rows);
        room
    }
}
