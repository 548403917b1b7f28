//! Numbers.
ghost use Rattle.std.specs.Prelude.{◌≡◌, ◌<◌, ◌++◌, length, IfOk, OnOk, IsTrue};
ghost use Rattle.std.specs.Int.{w8, w16, w32, w64, to_le_bytes};
ghost use Rattle.td_cols.specs.Kinds.{kind_width, is_in_range};
ghost use Rattle.td_codec.specs.Fields.{Gives, number, kind_number, signed_64};

use crate::fault::ReadFault;
use td_cols::{Kind, in_range, load, width};

/// A byte.
#[tactic(auto, unfolding(crate::specs::Fields::number_read))]
pub fn u8_of(bytes: &[u8]) -> Result<(u8, &[u8]), ReadFault>
    ensures { Gives (λ x. (x.0, x.1.now)) result ((number w8).read bytes.now) }
{
    if bytes.len() < 1 {
        return Err(ReadFault::Broken(bytes.len()));
    }
    let (front, rest) = bytes.split_at(1);
    Ok((front[0], rest))
}

/// A number of 16 bits.
#[tactic(auto, unfolding(crate::specs::Fields::number_read))]
pub fn u16_of(bytes: &[u8]) -> Result<(u16, &[u8]), ReadFault>
    ensures { Gives (λ x. (x.0, x.1.now)) result ((number w16).read bytes.now) }
{
    if bytes.len() < 2 {
        return Err(ReadFault::Broken(bytes.len()));
    }
    let (front, rest) = bytes.split_at(2);
    let number = u16::from_le_bytes([front[0], front[1]]);
    Ok((number, rest))
}

/// A number of 32 bits.
#[tactic(auto, unfolding(crate::specs::Fields::number_read))]
pub fn u32_of(bytes: &[u8]) -> Result<(u32, &[u8]), ReadFault>
    ensures { Gives (λ x. (x.0, x.1.now)) result ((number w32).read bytes.now) }
{
    if bytes.len() < 4 {
        return Err(ReadFault::Broken(bytes.len()));
    }
    let (front, rest) = bytes.split_at(4);
    let number = u32::from_le_bytes([front[0], front[1], front[2], front[3]]);
    Ok((number, rest))
}

/// A number of 64 bits.
#[tactic(auto, unfolding(crate::specs::Fields::number_read))]
pub fn u64_of(bytes: &[u8]) -> Result<(u64, &[u8]), ReadFault>
    ensures { Gives (λ x. (x.0, x.1.now)) result ((number w64).read bytes.now) }
{
    if bytes.len() < 8 {
        return Err(ReadFault::Broken(bytes.len()));
    }
    let (front, rest) = bytes.split_at(8);
    let number = u64::from_le_bytes([
        front[0], front[1], front[2], front[3], front[4], front[5], front[6], front[7],
    ]);
    Ok((number, rest))
}

/// A number of 64 bits in two's complement.
#[tactic(auto, unfolding(crate::specs::Fields::signed_64))]
pub fn i64_of(bytes: &[u8]) -> Result<(i64, &[u8]), ReadFault>
    ensures { Gives (λ x. (x.0, x.1.now)) result (signed_64.read bytes.now) }
{
    let (number, rest) = u64_of(bytes)?;
    Ok((number.cast_signed(), rest))
}

/// A number of a kind, which isn't a text.
#[tactic(auto, unfolding(crate::specs::Fields::kind_number_read))]
pub fn number_of(kind: Kind, bytes: &[u8]) -> Result<(i128, &[u8]), ReadFault>
    requires { 0 < kind_width kind }
    ensures { Gives (λ x. (x.0, x.1.now)) result ((kind_number kind).read bytes.now) }
{
    let size = width(kind);
    if bytes.len() < size {
        return Err(ReadFault::Broken(bytes.len()));
    }
    let (front, rest) = bytes.split_at(size);
    let number = load(kind, front);
    if !in_range(kind, number) {
        return Err(ReadFault::Broken(bytes.len()));
    }
    Ok((number, rest))
}

/// A number of 128 bits in two's complement.
#[tactic(auto, unfolding(td_cols::specs::Kinds::kind_width))]
pub fn i128_of(bytes: &[u8]) -> Result<(i128, &[u8]), ReadFault>
    ensures { Gives (λ x. (x.0, x.1.now)) result ((kind_number Kind.Wide).read bytes.now) }
{
    let (number, rest) = number_of(Kind::Wide, bytes)?;
    Ok((number, rest))
}
