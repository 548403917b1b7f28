//! From bytes to statement lines.
ghost use Rattle.std.specs.Prelude.{◌<◌, ◌≤◌, ◌^◌, length, IfOk, IfErr};
ghost use Rattle.td_script.specs.Script.{IsScript, FaultIs};

use crate::forms::{first_line, line_kind};
use crate::lines::{Line, ScriptFault};
use crate::numbering::Numbering;
use std::alloc::Global;
use td_layer::Seq;

/// The statement lines of a script.
///
/// `BadScript` comes exactly where the bytes aren't a script, and names the first line of no form, from 1. Want of
/// memory may come in place of any answer. Phases and ordinals are numbers of 32 bits, so the script has less than
/// 2^32 bytes: then it has fewer lines than that, and each of these numbers fits.
pub fn script(alloc: Global, bytes: &[u8]) -> Result<Seq<Line>, ScriptFault>
    requires { length bytes.now < 2 ^ 32 }
    ensures script { IfOk result (λ lines. IsScript bytes.now lines) }
    ensures few { IfOk result (λ lines. length lines ≤ length bytes.now) }
    ensures fault { IfErr result (λ fault. FaultIs bytes.now fault) }
{
    let mut numbering = Numbering::new(alloc);
    let mut rest = bytes;
    let mut number: u64 = 0;
    while !rest.is_empty() {
        let (line, after) = first_line(rest);
        number += 1;
        match line_kind(line) {
            None => return Err(ScriptFault::BadScript(number)),
            Some(kind) => {
                if numbering.add(alloc, kind).is_err() {
                    return Err(ScriptFault::NoMemory);
                }
            }
        }
        rest = after;
    }
    Ok(numbering.into_lines())
}
