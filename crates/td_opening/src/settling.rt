//! Settling a store that is opened.
ghost use Rattle.std.specs.Prelude.{◌≡◌, ◌+◌, IfErr, OnOk, OnErr, IfSome, IsTrue, is_some};
ghost use Rattle.td_outside.specs.Image.{Along, Becomes};
ghost use Rattle.td_outside.specs.Files.{NamesFiles};
ghost use Rattle.td_outside.specs.Logs.{with_log, after_sync};
ghost use Rattle.td_opening.specs.declared.causes.OpenCause.TheVariants as causes;
ghost use Rattle.td_opening.specs.Opening.{CountIs, Tidies, IsEmptyLog, HasNoItem, IsAtRest, HoldsLogs, Says, IsWhole, IsLogNumber, synced, dropped, drops_second, Settling, Sweeps, Swept, SettlesBy};

use crate::causes::OpenCause;
use crate::numbers::Numbers;
use crate::opening::Said;
use crate::replaying::LogBytes;
use td_active::ActiveLog;
use td_outside::Store;

// Makes a log stable, if it is there.
fn sync_log<S: Store>(store: &mut S, log: u64, is_there: bool) -> Result<(), OpenCause>
    requires { IfSome (S.told store.old) (λ image. is_some (image.logs log) ≡ is_there) }
    ensures ok { OnOk result (Becomes (with_log log after_sync) (S.told store.old) (S.told store.new)) }
    ensures err { OnErr result (S.told store.new ≡ S.told store.old) }
    ensures fault { IfErr result (λ cause. cause ≡ causes.StoreFault) }
    ensures count { CountIs result (S.count store.old) (S.count store.new) }
{
    if is_there {
        store.log_sync(log)?;
    }
    Ok(())
}

// Makes the first log and the one above it stable, where they are there.
fn sync_logs<S: Store>(store: &mut S, first_log: u64, logs: &LogBytes) -> Result<(), OpenCause>
    requires range { IsLogNumber first_log }
    requires there { IfSome (S.told store.old) (HoldsLogs first_log logs.now) }
    ensures ok { OnOk result (Becomes (synced first_log) (S.told store.old) (S.told store.new)) }
    ensures err { OnErr result (Along (Settling first_log) (S.told store.old) (S.told store.new)) }
    ensures fault { IfErr result (λ cause. cause ≡ causes.StoreFault) }
    ensures count { CountIs result (S.count store.old) (S.count store.new) }
{
    sync_log(store, first_log, logs.first.is_some())?;
    sync_log(store, first_log + 1, logs.second.is_some())?;
    Ok(())
}

// Whether the second log is to go: it is there, and the first one is written.
fn drops_second(first_log: u64, logs: &LogBytes, log: ActiveLog) -> bool
    ensures { result ≡ drops_second first_log logs.now log }
{
    logs.second.is_some() && log.number == first_log
}

// Takes away the log before the first one, and the second one where it is to go, which then has no item.
fn drop_logs<S: Store>(store: &mut S, first_log: u64, drops: bool) -> Result<(), OpenCause>
    requires range { IsLogNumber first_log }
    requires empty { IsTrue drops → IfSome (S.told store.old) (λ image. IsEmptyLog (image.logs (first_log + 1))) }
    ensures ok { OnOk result (Becomes (dropped first_log drops) (S.told store.old) (S.told store.new)) }
    ensures tidy { Along (Settling first_log) (S.told store.old) (S.told store.new) }
    ensures fault { IfErr result (λ cause. cause ≡ causes.StoreFault) }
    ensures count { CountIs result (S.count store.old) (S.count store.new) }
{
    store.log_drop(first_log - 1)?;
    if drops {
        store.log_drop(first_log + 1)?;
    }
    Ok(())
}

// Takes away the finished files that aren't named. No reader is open.
fn remove_files<S: Store>(store: &mut S, named: &Numbers, names: &[u64]) -> Result<(), OpenCause>
    requires names { IfSome (S.told store.old) (NamesFiles names.now) }
    requires unread { IfSome (S.told store.old) IsAtRest }
    ensures ok { OnOk result (Along (Swept named.now) (S.told store.old) (S.told store.new)) }
    ensures tidy { Along (Sweeps named.now) (S.told store.old) (S.told store.new) }
    ensures fault { IfErr result (λ cause. cause ≡ causes.StoreFault) }
    ensures count { CountIs result (S.count store.old) (S.count store.new) }
{
    for name in names {
        if !named.has(*name) {
            store.remove(*name)?;
        }
    }
    Ok(())
}

// Makes the logs of a store stable, takes away those that are to go, and the finished files that its head doesn't name.
pub(crate) fn settle<S: Store>(store: &mut S, said: &Said, log: ActiveLog) -> Result<(), OpenCause>
    requires whole { IsWhole said.now }
    requires said { IfSome (S.told store.old) (Says said.now) }
    requires empty { log.number ≡ said.now.head.first_log → HasNoItem said.now.logs.second }
    requires unread { IfSome (S.told store.old) IsAtRest }
    ensures ok { OnOk result (Along (SettlesBy said.now log) (S.told store.old) (S.told store.new)) }
    ensures tidy { Along Tidies (S.told store.old) (S.told store.new) }
    ensures fault { IfErr result (λ cause. cause ≡ causes.StoreFault) }
    ensures count { CountIs result (S.count store.old) (S.count store.new) }
{
    let first_log = said.head.first_log;
    sync_logs(store, first_log, &said.logs)?;
    drop_logs(store, first_log, drops_second(first_log, &said.logs, log))?;
    remove_files(store, &said.named, said.names.as_slice())?;
    Ok(())
}
