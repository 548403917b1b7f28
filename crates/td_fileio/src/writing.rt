//! Bytes on their way to a writer.
ghost use Rattle.std.specs.Prelude.{◌≡◌, ◌++◌, OnOk, OnErr, [], IfOk};
ghost use Rattle.std.specs.Io.KnownBytes.{append_known};
ghost use Rattle.td_fileio.specs.Writing.{Adds};

use crate::reading::PIECE;
use std::alloc::Global;
use td_layer::NoMem;
use td_outside::{IoFault, Writer};

// Adds bytes to those that wait.
fn extend(waiting: &mut Vec<u8>, bytes: &[u8]) -> Result<(), NoMem>
    ensures { OnOk result (waiting.new.items ≡ waiting.old.items ++ bytes.now) }
{
    waiting.extend_from_slice(bytes)?;
    Ok(())
}

/// Hands the bytes that wait to their writer.
pub fn flush<W: Writer>(alloc: Global, out: &mut W, waiting: &mut Vec<u8>) -> Result<(), IoFault>
    ensures empty { OnOk result (waiting.new.items ≡ []) }
    ensures added { Adds (append_known (W.written out.old) waiting.old.items)
        (append_known (W.written out.new) waiting.new.items)
        (W.name out.old) (W.name out.new) (W.count out.old) (W.count out.new) result [] }
{
    out.write(alloc, waiting.as_slice())?;
    waiting.clear();
    Ok(())
}

/// Adds bytes to those that wait for a writer, and hands all of them to it once they are 64 KiB.
pub fn put<W: Writer>(
    alloc: Global,
    out: &mut W,
    waiting: &mut Vec<u8>,
    bytes: &[u8],
) -> Result<(), IoFault>
    ensures { Adds (append_known (W.written out.old) waiting.old.items)
        (append_known (W.written out.new) waiting.new.items)
        (W.name out.old) (W.name out.new) (W.count out.old) (W.count out.new) result bytes.now }
{
    extend(waiting, bytes)?;
    if waiting.len() as u64 >= PIECE {
        flush(alloc, out, waiting)?;
    }
    Ok(())
}
