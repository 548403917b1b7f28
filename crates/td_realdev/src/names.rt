//! Names in a directory of the system.
ghost use Rattle.std.specs.Prelude.{◌≡◌, ◌++◌, codes, IfOk, string_bytes};
ghost use Rattle.td_realdev.specs.Names.{numbered};

use std::alloc::Global;
use std::io;

/// The path of a log or a file in a directory: its letter and its number in decimal.
pub fn path_of(alloc: Global, dir: &String, letter: char, number: u64) -> io::Result<String>
    ensures { IfOk result (λ path. string_bytes path ≡ string_bytes dir.now ++ codes "/" ++ numbered letter number) }
{
    let path = format!(in alloc; "{dir}/{letter}{number}")?;
    Ok(path)
}

/// The number in a name of a letter and a number in plain decimal, without a sign and without a zero in front.
pub fn number_of(name: &str, letter: char) -> Option<u64> {
    let digits = name.strip_prefix(letter)?;
    if !digits.bytes().all(|byte| byte.is_ascii_digit()) {
        return None;
    }
    if digits.len() > 1 && digits.starts_with('0') {
        return None;
    }
    digits.parse::<u64>().ok()
}
