//! The kinds of a column, and the calls that take one.
ghost use Rattle.std.specs.Prelude.{◌≡◌, ◌<◌, ◌≤◌, length, IsTrue};
ghost use Rattle.td_cols.specs.Kinds.{kind_code, kind_width, kind_is_signed, kind_least, kind_most, is_in_range};
ghost use Rattle.td_cols.specs.Spelling.{spelling, number_spelled, HasOneSpelling};

use crate::bytes::{read_number, write_number};
use td_limits::LAST_TIMESTAMP;

/// The kind of a column or of a result. `Bool` is 0 or 1, `Time` counts milliseconds from 1970 to the end of
/// the year 9999, `Wide` holds sums in 128 bits, and a `Text` has at most so many bytes.
#[derive(Clone, Copy, Debug, PartialEq, Eq)]
pub enum Kind {
    Bool,
    I8,
    I16,
    I32,
    I64,
    U8,
    U16,
    U32,
    U64,
    Time,
    Wide,
    Text(u16),
}

/// What is fixed of a kind: its code in files, the bytes of each of its numbers, whether these are two's
/// complement, and the least and the most of its numbers.
#[derive(Clone, Copy)]
struct Form {
    code: u8,
    width: usize,
    signed: bool,
    least: i128,
    most: i128,
}

/// The table of the kinds. A text has no numbers, so its most is below its least.
#[tactic(auto, unfolding(crate::specs::Kinds::kind_code, crate::specs::Kinds::kind_width, crate::specs::Kinds::kind_is_signed, crate::specs::Kinds::kind_least, crate::specs::Kinds::kind_most))]
fn form_of(kind: Kind) -> Form
    ensures code { result.code ≡ kind_code kind }
    ensures width { result.width ≡ kind_width kind }
    ensures signed { result.signed ≡ kind_is_signed kind }
    ensures least { result.least ≡ kind_least kind }
    ensures most { result.most ≡ kind_most kind }
{
    let (code, width, signed, least, most) = match kind {
        Kind::Bool => (1, 1, false, 0, 1),
        Kind::I8 => (2, 1, true, i8::MIN as i128, i8::MAX as i128),
        Kind::I16 => (3, 2, true, i16::MIN as i128, i16::MAX as i128),
        Kind::I32 => (4, 4, true, i32::MIN as i128, i32::MAX as i128),
        Kind::I64 => (5, 8, true, i64::MIN as i128, i64::MAX as i128),
        Kind::U8 => (6, 1, false, 0, u8::MAX as i128),
        Kind::U16 => (7, 2, false, 0, u16::MAX as i128),
        Kind::U32 => (8, 4, false, 0, u32::MAX as i128),
        Kind::U64 => (9, 8, false, 0, u64::MAX as i128),
        Kind::Time => (10, 8, false, 0, LAST_TIMESTAMP as i128),
        Kind::Wide => (11, 16, true, i128::MIN, i128::MAX),
        Kind::Text(_) => (12, 0, false, 1, 0),
    };
    Form {
        code,
        width,
        signed,
        least,
        most,
    }
}

/// The code of a kind in files, 1 to 12.
pub fn code(kind: Kind) -> u8
    ensures { result ≡ kind_code kind }
{
    form_of(kind).code
}

/// How many bytes a number of the kind takes, 0 for a text.
#[tactic(auto, using(crate::proofs::KindWidths::kind_width_few))]
pub fn width(kind: Kind) -> usize
    ensures width { result ≡ kind_width kind }
    ensures few { result ≤ 16 }
{
    form_of(kind).width
}

/// Whether `v` is a number of the kind. A text has none, so a kind with one takes bytes.
#[tactic(auto, using(crate::proofs::KindWidths::kind_width_some), unfolding(crate::specs::Kinds::is_in_range))]
pub fn in_range(kind: Kind, v: i128) -> bool
    ensures in_range { result ≡ is_in_range kind v }
    ensures fixed { IsTrue result → 0 < kind_width kind }
{
    let form = form_of(kind);
    form.least <= v && v <= form.most
}

/// Writes the one spelling of the number `v` of the kind over `out`, which has the kind's width. No number
/// of a text is in range, so the kind is none.
#[tactic(auto, using(crate::proofs::KindWidths::kind_width_few, crate::proofs::KindWidths::kind_width_some))]
pub fn store(kind: Kind, v: i128, out: &mut [u8])
    requires in_range { IsTrue (is_in_range kind v) }
    requires room { length out.old ≡ kind_width kind }
    ensures spelled { out.new ≡ spelling kind v }
    ensures loaded { number_spelled kind out.new ≡ v }
{
    write_number(v, out);
}

/// The number that `bytes` of the kind's width spell, which is a number of the kind exactly where it is in
/// range: 7 for the byte 7 of a `Bool`, which spells no truth value. The kind isn't a text.
#[tactic(auto, using(crate::proofs::KindWidths::kind_width_few))]
pub fn load(kind: Kind, bytes: &[u8]) -> i128
    requires fixed { 0 < kind_width kind }
    requires room { length bytes.now ≡ kind_width kind }
    ensures number { result ≡ number_spelled kind bytes.now }
    ensures stored { spelling kind result ≡ bytes.now }
{
    read_number(bytes, form_of(kind).signed)
}

/// A law: numbers in range and spellings of a kind belong to each other one to one.
#[tactic(auto, using(crate::proofs::OneSpelling::kind_spelling))]
pub fn one_spelling(kind: Kind)
    ensures { HasOneSpelling kind }
{}
