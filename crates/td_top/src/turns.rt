//! One line's turn on a core.
ghost use Rattle.std.specs.Prelude.{◌≡◌, ◌⊎◌, ◌≤◌, ◌<◌, false, IfOk, OnErr, IsTrue};
ghost use Rattle.td_limits.specs.declared.limits.TheConstants.{SESSIONS};
ghost use Rattle.td_model.specs.declared.language.Query.{Query as AQuery};
ghost use Rattle.td_model.specs.State.{State};
ghost use Rattle.td_parse.specs.Statements.{IsAnswer};
ghost use Rattle.td_told.specs.Verdict.{reads_clock, answer, header};
ghost use Rattle.td_core.specs.CoreState.{seen};
ghost use Rattle.td_core.specs.Pins.{Sees};
ghost use Rattle.td_top.specs.Replies.{accepted_as, submit_reply, IsQueryReply, IsReadReply};
ghost use Rattle.td_top.specs.Turns.{TurnOn, LineTurn};

use std::alloc::Global;
use std::marker::Brand;
use std::sync::ledger::{Blank, Ledger};
use td_core::{Core, PinEnd, Pinned, Room, Submitted};
use td_layer::{NoMem, Steps};
use td_model::{Cause, Query, Reply, Stmt};
use td_outside::{Clock, Store};
use td_parse::{Line, statement};
use td_told::reads_clock;

// The reply to a statement that is accepted.
fn accepted_reply(stmt: &Stmt, version: u64, rows: u32, edge: u32) -> Reply
    ensures { result ≡ accepted_as stmt.now version rows edge }
{
    match stmt {
        Stmt::Insert { .. } => Reply::AcceptedRows { version, rows },
        Stmt::Trim => Reply::AcceptedEdge { version, edge },
        _ => Reply::Accepted { version },
    }
}

// The reply to a statement that was submitted.
fn reply_of(stmt: &Stmt, submitted: Submitted) -> Reply
    ensures { result ≡ submit_reply stmt.now submitted }
{
    match submitted {
        Submitted::Accepted {
            version,
            rows,
            edge,
        } => accepted_reply(stmt, version, rows, edge),
        Submitted::Refused { cause, prefix } => Reply::Refused { prefix, cause },
        Submitted::StoreFault { halt } => Reply::StoreFaultHalt { halt },
        Submitted::Full { .. } | Submitted::NoMemory => Reply::NoMemory,
    }
}

// The turn of a write, or of a text that is no statement.
fn write_turn<S: Store, C: Clock>(
    core: &mut Core<S, C>,
    session: u32,
    ordinal: u32,
    text: &[u8],
    stmt: &Stmt,
) -> Reply
    requires session { (1 ≤ session) × (session ≤ SESSIONS) }
    requires parsed { IsAnswer text.now stmt.now }
    requires write { IsTrue (reads_clock stmt.now) }
    ensures { TurnOn stmt.now session ordinal (seen S.told S.count C.readings core.old)
        (seen S.told S.count C.readings core.new) result }
{
    let submitted = core.submit(session, ordinal, text, stmt);
    reply_of(stmt, submitted)
}

// The whole answer of a pinned query.
fn whole_answer<S: Store, L: Ledger>(
    pinned: &mut Pinned<S>,
    steps: &mut Steps<L>,
) -> Result<Reply, NoMem>
    ensures slots { pinned.new.slots ≡ pinned.old.slots }
    ensures answer { (q : AQuery) (s : State) → Sees pinned.old q s 0
        → IfOk result (λ r. r ≡ Reply.Answer s.version (header (Stmt.Select q) s) (answer (Stmt.Select q) s)) }
{
    let header = pinned.header().copy()?;
    let prefix = pinned.prefix();
    match pinned.rows(u64::MAX, steps) {
        Ok(rows) => Ok(Reply::Answer {
            prefix,
            header,
            rows,
        }),
        Err(_) => Err(NoMem),
    }
}

// The reply to a query that is pinned, which is released. Its steps are counted on a ledger of their own.
fn pinned_reply<S: Store, C: Clock, L: Ledger>(
    core: &mut Core<S, C>,
    pinned: Pinned<S>,
    blank: Blank,
) -> Reply
    requires name { blank.name ≡ L.name }
    requires parts { blank.parts ≡ L.parts }
    requires some { 0 < blank.parts }
    ensures core { core.new ≡ core.old }
    ensures reply { (q : AQuery) (s : State) → Sees pinned q s 0
        → (result ≡ Reply.Answer s.version (header (Stmt.Select q) s) (answer (Stmt.Select q) s))
        ⊎ (result ≡ Reply.NoMemory) }
{
    let mut pinned = pinned;
    let mut steps: Steps<L> = Steps::new(blank);
    let reply = match whole_answer(&mut pinned, &mut steps) {
        Ok(reply) => reply,
        Err(NoMem) => Reply::NoMemory,
    };
    core.release(pinned).done();
    reply
}

// The reply where there was no memory, whose room is spent.
fn starved<S: Store>(room: Room<S>) -> Reply
    ensures { result ≡ Reply.NoMemory }
{
    room.done();
    Reply::NoMemory
}

// The reply to a query in the state of a core.
fn query_reply<S: Store, C: Clock>(alloc: Global, core: &mut Core<S, C>, query: &Query) -> Reply
    ensures core { core.new ≡ core.old }
    ensures reply { IsQueryReply query.now core.old.state result }
{
    let Ok(room) = Room::new(alloc, 0) else {
        return Reply::NoMemory;
    };
    match core.pin(query, room) {
        PinEnd::Pinned(pinned) => pinned_reply::<S, C, Brand>(core, pinned, Blank::new(1)),
        PinEnd::Refused {
            cause,
            prefix,
            room,
        } => {
            room.done();
            Reply::Refused { prefix, cause }
        }
        PinEnd::Short { files: _, room } => starved(room),
        PinEnd::StoreFault { room } => starved(room),
        PinEnd::NoMemory { room } => starved(room),
    }
}

// The reply to a statement that isn't built.
fn not_built<S: Store, C: Clock>(core: &Core<S, C>) -> Reply
    ensures { result ≡ Reply.Refused core.now.state.version Cause.OptionNotBuilt }
{
    Reply::Refused {
        prefix: core.front(),
        cause: Cause::OptionNotBuilt,
    }
}

// The turn of a statement that is no write: a query is answered, and nothing else is built.
fn read_turn<S: Store, C: Clock>(alloc: Global, core: &mut Core<S, C>, stmt: &Stmt) -> Reply
    requires { reads_clock stmt.now ≡ false }
    ensures core { core.new ≡ core.old }
    ensures reply { IsReadReply stmt.now core.old.state result }
{
    match stmt {
        Stmt::Select(query) => query_reply(alloc, core, query),
        _ => not_built(core),
    }
}

// The turn of a statement of a session.
fn turn<S: Store, C: Clock>(
    alloc: Global,
    core: &mut Core<S, C>,
    session: u32,
    ordinal: u32,
    text: &[u8],
    stmt: &Stmt,
) -> Reply
    requires session { (1 ≤ session) × (session ≤ SESSIONS) }
    requires parsed { IsAnswer text.now stmt.now }
    ensures { TurnOn stmt.now session ordinal (seen S.told S.count C.readings core.old)
        (seen S.told S.count C.readings core.new) result }
{
    if reads_clock(stmt) {
        write_turn(core, session, ordinal, text, stmt)
    } else {
        read_turn(alloc, core, stmt)
    }
}

// A line's turn: its text is read as a statement, which has its turn on the core.
pub(crate) fn line_turn<S: Store, C: Clock>(
    alloc: Global,
    core: &mut Core<S, C>,
    line: &Line,
) -> Result<Reply, NoMem>
    requires { (1 ≤ line.now.session) × (line.now.session ≤ SESSIONS) }
    ensures turn { IfOk result (λ r. LineTurn line.now (seen S.told S.count C.readings core.old)
        (seen S.told S.count C.readings core.new) r) }
    ensures kept { OnErr result (core.new ≡ core.old) }
{
    let stmt = statement(alloc, line.text.as_slice())?;
    let reply = turn(
        alloc,
        core,
        line.session,
        line.ordinal,
        line.text.as_slice(),
        &stmt,
    );
    drop(stmt);
    Ok(reply)
}
