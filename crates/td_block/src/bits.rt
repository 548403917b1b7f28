//! Bitmaps.
ghost use Rattle.std.specs.Prelude.{◌≡◌, ◌<◌, ◌≤◌, ◌^◌, length, map};
ghost use Rattle.td_block.specs.Bits.{bitmap_length, is_set, packed};
ghost use Rattle.td_block.specs.Columns.{bit_of};

use td_layer::Value;

/// What a bitmap says of a cell: whether it is named, or whether it has a value.
#[derive(Clone, Copy)]
pub(crate) enum Bit {
    Named,
    Valued,
}

/// How many bytes so many bits take.
pub(crate) fn bitmap_length(bits: u32) -> usize
    ensures { result ≡ bitmap_length bits }
{
    (bits as usize + 7) / 8
}

/// Whether a bit is set.
pub(crate) fn is_set(bytes: &[u8], bit: u32) -> bool
    ensures { result ≡ is_set bytes.now bit }
{
    match bytes.get((bit / 8) as usize) {
        None => false,
        Some(byte) => (*byte >> (bit % 8)) & 1 == 1,
    }
}

/// What a bitmap says of a cell.
fn bit_of(bit: Bit, cell: Option<Value>) -> bool
    ensures { result ≡ bit_of bit cell }
{
    match (bit, cell) {
        (Bit::Named, None) => false,
        (Bit::Named, Some(_)) => true,
        (Bit::Valued, Some(Value::Num(_))) => true,
        (Bit::Valued, None | Some(Value::Null)) => false,
    }
}

/// The bits of at most eight cells as a byte, the first as the lowest.
pub(crate) fn packed(bit: Bit, cells: &[Option<Value>]) -> u8
    requires { length cells.now ≤ 8 }
    ensures packed { result ≡ packed (map (bit_of bit) cells.now) }
    ensures below { result < 2 ^ length cells.now }
{
    match cells {
        [] => 0,
        [first, others @ ..] => {
            let low = u8::from(bit_of(bit, *first));
            low + 2 * packed(bit, others)
        }
    }
}
