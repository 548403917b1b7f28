//! A whole source, and a whole text.
ghost use Rattle.std.specs.Prelude.{◌≡◌, ◌≤◌, vec_len, IfOk, IfErr, OnOk};
ghost use Rattle.td_top.specs.Stream.{ReadWhole, ReadFaultIs, TookFew, GaveFew, Writes};

use std::alloc::Global;
use td_limits::SCRIPT_BYTES;
use td_outside::{Failed, Sink, Source};

const PIECE: usize = 4096;

/// Why a source wasn't read to its end.
#[derive(Clone, Copy, Debug, PartialEq, Eq)]
pub enum ReadFault {
    NoMemory,
    TooLarge,
    Input,
}

/// All bytes of a source.
pub fn read_all<I: Source>(alloc: Global, input: &mut I) -> Result<Vec<u8>, ReadFault>
    ensures whole { IfOk result (λ bytes. ReadWhole (I.left input.old) (I.left input.new) bytes.items) }
    ensures fault { IfErr result (λ fault. ReadFaultIs (I.left input.old) (I.left input.new)
        (I.count input.old) (I.count input.new) fault) }
    ensures few { TookFew (I.left input.old) (I.left input.new) }
    ensures given { GaveFew (I.given input.old) (I.given input.new) }
    ensures calm { OnOk result (I.count input.new ≡ I.count input.old) }
    ensures small { IfOk result (λ bytes. vec_len bytes ≤ SCRIPT_BYTES) }
{
    let mut all = Vec::new(alloc);
    let mut piece = [0u8; PIECE];
    while all.len() <= SCRIPT_BYTES {
        let room = PIECE.min(SCRIPT_BYTES + 1 - all.len());
        match input.read(&mut piece[..room]) {
            Err(Failed) => return Err(ReadFault::Input),
            Ok(count) => {
                if count == 0 {
                    return Ok(all);
                }
                if all.extend_from_slice(&piece[..count]).is_err() {
                    return Err(ReadFault::NoMemory);
                }
            }
        }
    }
    Err(ReadFault::TooLarge)
}

/// Writes a whole text.
pub fn write_all<O: Sink>(out: &mut O, text: &[u8]) -> Result<(), Failed>
    ensures { Writes (O.written out.old) (O.written out.new) (O.count out.old) (O.count out.new) result text.now }
{
    let mut at = 0;
    while at < text.len() {
        match out.write(&text[at..]) {
            Err(Failed) => return Err(Failed),
            Ok(count) => at += count,
        }
    }
    Ok(())
}
