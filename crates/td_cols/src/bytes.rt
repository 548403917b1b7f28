//! Numbers as bytes, of any width up to 16.
ghost use Rattle.std.specs.Prelude.{◌≡◌, ◌<◌, ◌≤◌, length};
ghost use Rattle.td_cols.specs.Spelling.{spelling_in, number_in};

use byteorder::{ByteOrder, LittleEndian};

/// Writes `v` over all of `out`, the lowest byte first: as many bytes of its two's complement as `out` has.
#[tactic(auto, unfolding(crate::specs::Spelling::spelling_in))]
pub(crate) fn write_number(v: i128, out: &mut [u8])
    requires some { 0 < length out.old }
    requires few { length out.old ≤ 16 }
    ensures { out.new ≡ spelling_in (length out.old) v }
{
    LittleEndian::write_int128(out, v, out.len());
}

/// The number that all of `bytes` spell, the lowest first, as two's complement if `signed`.
#[tactic(auto, unfolding(crate::specs::Spelling::number_in))]
pub(crate) fn read_number(bytes: &[u8], signed: bool) -> i128
    requires some { 0 < length bytes.now }
    requires few { length bytes.now ≤ 16 }
    ensures { result ≡ number_in signed bytes.now }
{
    if signed {
        LittleEndian::read_int128(bytes, bytes.len())
    } else {
        LittleEndian::read_uint128(bytes, bytes.len()).cast_signed()
    }
}
