//! Opening a store.
ghost use Rattle.std.specs.Prelude.{◌≡◌, ◌≢◌, ℕ, true, [], IfOk, IfErr, IfSome};
ghost use Rattle.td_manifest.specs.Files.{all_files};
ghost use Rattle.td_manifest.specs.Heads.{head_body};
ghost use Rattle.td_outside.specs.Image.{Along};
ghost use Rattle.td_outside.specs.Files.{lists};
ghost use Rattle.td_opening.specs.declared.causes.OpenCause.TheVariants as causes;
ghost use Rattle.td_opening.specs.Opening.{CountIs, BreaksBy, IsAtRest, Says, IsWhole, HasAll, HeadLacks, MakesState, LogsRefuse, IsOpened, Tidies};

use crate::causes::OpenCause;
use crate::head::{check_head, file_sets, files_of, read_head};
use crate::numbers::Numbers;
use crate::replaying::{LogBytes, Replayed, replay_logs};
use crate::settling::settle;
use std::alloc::Global;
use td_active::ActiveLog;
use td_layer::Seq;
use td_levels::RowLevels;
use td_manifest::Head;
use td_outside::Store;
use td_state::Tables;

// What a store says: its head, the files that this names, the numbers of its finished files, and the bytes of its logs.
#[derive(Drop)]
pub(crate) struct Said {
    pub(crate) head: Head,
    pub(crate) named: Numbers,
    pub(crate) names: Seq<u64>,
    pub(crate) logs: LogBytes,
}

/// What a store was opened as: the state but for its rows, the levels that hold these, the version of its head, the log
/// that is written, and the head of the state up to which the frozen memtable goes, where one is frozen.
#[derive(Drop)]
pub struct Opened {
    pub tables: Tables,
    pub levels: RowLevels,
    pub committed: u64,
    pub log: ActiveLog,
    pub sealed: Option<Head>,
}

// What the head and the logs of a store make: the state but for its rows, the levels that hold these, and the log that
// is written.
#[derive(Drop)]
struct Loaded {
    tables: Tables,
    levels: RowLevels,
    replayed: Replayed,
}

// The files that a head names, where all are finished and it has no stream.
fn named_files(alloc: Global, head: &Head, names: &[u64]) -> Result<Numbers, OpenCause>
    requires fits { head_body.fits head.now ≡ true }
    ensures named { IfOk result (λ named. (n : ℕ) → lists n named ≡ lists n (all_files head.now.sets)) }
    ensures ok { IfOk result (λ _. HasAll head.now names.now) }
    ensures err { IfErr result (HeadLacks head.now names.now) }
{
    let files = files_of(alloc, head)?;
    check_head(alloc, head, files.as_slice(), names)?;
    let named = Numbers::of(alloc, files.as_slice())?;
    Ok(named)
}

// Reads the head, the numbers of the finished files, and the first two logs of a store.
fn read_store<S: Store>(alloc: Global, store: &mut S) -> Result<Said, OpenCause>
    ensures told { S.told store.new ≡ S.told store.old }
    ensures says { IfOk result (λ said. IfSome (S.told store.old) (Says said)) }
    ensures whole { IfOk result IsWhole }
    ensures strange { IfErr result (λ cause. IfSome (S.told store.old) (BreaksBy cause)) }
    ensures count { CountIs result (S.count store.old) (S.count store.new) }
{
    let head = read_head(alloc, store)?;
    let names = store.names(alloc)?;
    let named = named_files(alloc, &head, names.as_slice())?;
    let first = store.log_read(alloc, head.first_log)?;
    let second = store.log_read(alloc, head.first_log + 1)?;
    let logs = LogBytes { first, second };
    Ok(Said {
        head,
        named,
        names,
        logs,
    })
}

// Makes the state and the levels of a head and its logs.
fn load(alloc: Global, head: &Head, logs: &LogBytes) -> Result<Loaded, OpenCause>
    requires fits { head_body.fits head.now ≡ true }
    requires streams { head.now.streams ≡ [] }
    ensures ok { IfOk result (λ made. MakesState head.now logs.now made.tables.state made.levels made.replayed) }
    ensures err { IfErr result (LogsRefuse head.now logs.now) }
{
    let mut tables = Tables::of_head(alloc, head)?;
    let mut levels = RowLevels::of_sets(alloc, file_sets(alloc, head)?);
    let replayed = replay_logs(alloc, head, logs, &mut tables, &mut levels)?;
    Ok(Loaded {
        tables,
        levels,
        replayed,
    })
}

/// Opens a store. It reads the head, the numbers of the finished files and the first two logs, and no other file; then
/// it makes the logs that are there stable, takes away the log before the first one and a second one without items, and
/// removes the finished files that the head doesn't name. All memory is taken before the store is changed.
///
/// After `Ok` the store stands for the state that it stood for, and so do the state and the levels. `NotThisStore`
/// comes exactly where the head or a log breaks the form of a store, with the first place at which it does; so it never
/// comes where the store stands for a state. `StoreFault` comes only where the store failed. After each of them, and
/// after `NoMemory`, the store stands for the states that it stood for; after `NotThisStore` and `NoMemory` it wasn't
/// changed.
pub fn open_store<S: Store>(alloc: Global, store: &mut S) -> Result<Opened, OpenCause>
    requires { IfSome (S.told store.old) IsAtRest }
    ensures ok { IfOk result (IsOpened (S.told store.old) (S.told store.new)) }
    ensures tidy { Along Tidies (S.told store.old) (S.told store.new) }
    ensures strange { IfErr result (λ cause. IfSome (S.told store.old) (BreaksBy cause)) }
    ensures untouched { IfErr result (λ cause. cause ≢ causes.StoreFault → S.told store.new ≡ S.told store.old) }
    ensures count { CountIs result (S.count store.old) (S.count store.new) }
{
    let said = read_store(alloc, store)?;
    let Loaded {
        tables,
        levels,
        replayed,
    } = load(alloc, &said.head, &said.logs)?;
    let Replayed { log, sealed } = replayed;
    settle(store, &said, log)?;
    Ok(Opened {
        tables,
        levels,
        committed: said.head.version,
        log,
        sealed,
    })
}
