//! Decimal texts.
ghost use Rattle.std.specs.Prelude.{◌≡◌, ◌++◌, OnOk, OnErr};
ghost use Rattle.std.specs.Fmt.{signed_decimal};

use itoa::Buffer;
use td_layer::{NoMem, Seq};

/// Adds the decimal text of a number at the end, with `-` before a negative one. Where there is no memory the list
/// stays as it was.
pub fn decimal(n: i128, out: &mut Seq<u8>) -> Result<(), NoMem>
    ensures ok { OnOk result (out.new ≡ out.old ++ signed_decimal n) }
    ensures err { OnErr result (out.new ≡ out.old) }
{
    let mut buffer = Buffer::new();
    out.extend(buffer.format(n).as_bytes())?;
    Ok(())
}
