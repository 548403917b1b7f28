//! How a run ended.
use std::alloc::Global;
use td_cases::{CaseFault, Out};
use td_core::FileId;
use td_top::Status;

/// Adds the exit number of a status, how many bytes were written, and the line on standard error, if there is one.
pub(crate) fn push_status(
    out: &mut Out,
    alloc: Global,
    status: Status,
    written: usize,
) -> Result<(), CaseFault> {
    out.push(b"exit ");
    out.number(i128::from(status.exit_number()));
    out.push(b", ");
    out.number(written as i128);
    out.push(b" bytes");
    push_line(out, alloc, status)
}

fn push_line(out: &mut Out, alloc: Global, status: Status) -> Result<(), CaseFault> {
    let line = format!(in alloc; "{status}")?;
    if !line.is_empty() {
        out.push(b": ");
        out.push(line.as_bytes());
    }
    out.push(b"\n");
    Ok(())
}

/// Adds each status with its exit number and its line.
pub(crate) fn push_statuses(out: &mut Out, alloc: Global) -> Result<(), CaseFault> {
    let all = [
        Status::Done,
        Status::NoMemory,
        Status::Usage,
        Status::BadScript(12),
        Status::TooLarge,
        Status::InputFault,
        Status::OutputFault,
        Status::StoreFault,
        Status::NotThisStore {
            file: FileId::Head,
            at: 0,
        },
        Status::NotThisStore {
            file: FileId::Log(1),
            at: 30,
        },
        Status::NotThisStore {
            file: FileId::File(7),
            at: 32,
        },
    ];
    for status in &all {
        out.push(b"exit ");
        out.number(i128::from(status.exit_number()));
        push_line(out, alloc, *status)?;
    }
    Ok(())
}
