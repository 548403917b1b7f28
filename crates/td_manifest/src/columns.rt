//! Columns and tags.
ghost use Rattle.std.specs.Prelude.{◌≡◌, ◌∷◌, ◌++◌, List, length};
ghost use Rattle.std.specs.Int.{w8};
ghost use Rattle.td_codec.specs.Fields.{Gives, checked, number};
ghost use Rattle.td_manifest.specs.Columns.{kind_by, with_size, allows, is_code, size_field, kind_field, has_column, place_behind, column_field, column_behind, tag_behind, column_items, tag_items, columns_field, tags_field};

use crate::lists::{ItemReader, items_of};
use crate::names::name_of;
use std::alloc::Global;
use td_codec::{ReadFault, u8_of, u16_of};
use td_cols::Kind;
use td_layer::Seq;
use td_limits::{COLUMNS, TAG_BYTES, TAGS};
use td_model::Column;

/// Where a column stands: first in its table, behind another, or as a tag.
#[derive(Clone, Copy)]
pub(crate) enum Place {
    First,
    Later,
    Tag,
}

/// The kind of a code.
#[tactic(auto, unfolding(crate::specs::Columns::kind_by))]
fn kind_by(code: u8) -> Kind
    ensures { result ≡ kind_by code }
{
    match code {
        1 => Kind::Bool,
        2 => Kind::I8,
        3 => Kind::I16,
        4 => Kind::I32,
        5 => Kind::I64,
        6 => Kind::U8,
        7 => Kind::U16,
        8 => Kind::U32,
        9 => Kind::U64,
        10 => Kind::Time,
        11 => Kind::Wide,
        _ => Kind::Text(0),
    }
}

/// A kind, where a text of it has at most so many bytes.
fn with_size(kind: Kind, size: u16) -> Kind
    ensures { result ≡ with_size kind size }
{
    match kind {
        Kind::Text(_) => Kind::Text(size),
        _ => kind,
    }
}

/// Whether a kind is allowed at a place.
fn allows(place: Place, kind: Kind) -> bool
    ensures { result ≡ allows place kind }
{
    match place {
        Place::First => matches!(kind, Kind::Time),
        Place::Later => !matches!(kind, Kind::Wide | Kind::Text(_)),
        Place::Tag => !matches!(kind, Kind::Wide),
    }
}

/// How many bytes a text has at most, where the kind is that of a text.
fn size_of(kind: Kind, bytes: &[u8]) -> Result<(u16, &[u8]), ReadFault>
    ensures { Gives (λ x. (x.0, x.1.now)) result ((size_field kind).read bytes.now) }
{
    match kind {
        Kind::Text(_) => {
            let (size, rest) = u16_of(bytes)?;
            if 1 <= size && size as u32 <= TAG_BYTES {
                return Ok((size, rest));
            }
            Err(ReadFault::Broken(bytes.len()))
        }
        _ => Ok((0, bytes)),
    }
}

/// The code of a kind that is allowed at a place.
fn code_of(place: Place, bytes: &[u8]) -> Result<(u8, &[u8]), ReadFault>
    ensures { Gives (λ x. (x.0, x.1.now)) result ((checked (number w8) (is_code place)).read bytes.now) }
{
    let (code, rest) = u8_of(bytes)?;
    if 1 <= code && code <= 12 && allows(place, kind_by(code)) {
        return Ok((code, rest));
    }
    Err(ReadFault::Broken(bytes.len()))
}

/// A kind that is allowed at a place.
#[tactic(auto, unfolding(crate::specs::Columns::kind_field))]
fn kind_of(place: Place, bytes: &[u8]) -> Result<(Kind, &[u8]), ReadFault>
    ensures { Gives (λ x. (x.0, x.1.now)) result ((kind_field place).read bytes.now) }
{
    let (code, rest) = code_of(place, bytes)?;
    let kind = kind_by(code);
    let (size, rest) = size_of(kind, rest)?;
    Ok((with_size(kind, size), rest))
}

/// Whether a column has a name.
fn has_column(name: &[u8], columns: &[Column]) -> bool
    ensures { result ≡ has_column name.now columns.now }
{
    columns.iter().any(|c| c.name.as_slice() == name)
}

/// Where a column behind others stands.
fn place_behind(before: &[Column]) -> Place
    ensures { result ≡ place_behind (length before.now) }
{
    if before.is_empty() {
        Place::First
    } else {
        Place::Later
    }
}

/// Reads columns: the timestamp first, and no name twice.
#[derive(Drop)]
struct Columns;

#[tactic(auto, unfolding(crate::specs::Columns::column_items, crate::specs::Columns::column_field, crate::specs::Names::new_name))]
impl ItemReader for Columns {
    type Item = Column;

    ghost items = { λ _. column_items };

    ghost knows = { λ _ _. Unit {0} };

    fn item_of<'a>(
        &mut self,
        alloc: Global,
        before: &[Column],
        bytes: &'a [u8],
    ) -> Result<(Column, &'a [u8]), ReadFault> {
        let (name, rest) = name_of(alloc, bytes)?;
        if has_column(name.as_slice(), before) {
            return Err(ReadFault::Broken(bytes.len()));
        }
        let (kind, rest) = kind_of(place_behind(before), rest)?;
        Ok((Column { name, kind }, rest))
    }
}

/// The columns of a table: a count of 16 bits, and so many.
#[tactic(auto, unfolding(crate::specs::Columns::columns_field))]
pub(crate) fn columns_of(alloc: Global, bytes: &[u8]) -> Result<(Seq<Column>, &[u8]), ReadFault>
    ensures { Gives (λ x. (x.0, x.1.now)) result (columns_field.read bytes.now) }
{
    let (count, rest) = u16_of(bytes)?;
    if !(1 <= count && count as usize <= COLUMNS) {
        return Err(ReadFault::Broken(bytes.len()));
    }
    let (columns, rest) = items_of(alloc, &mut Columns, count as u32, rest)?;
    Ok((columns, rest))
}

/// Reads tags, whose names differ from each other and from those of these columns.
#[derive(Drop)]
struct Tags<'c> {
    columns: &'c [Column],
}

#[tactic(auto, unfolding(crate::specs::Columns::tag_items, crate::specs::Columns::column_field, crate::specs::Names::new_name))]
impl<'c> ItemReader for Tags<'c> {
    type Item = Column;

    ghost items = { λ r. tag_items r.columns.now };

    ghost knows = { λ _ _. Unit {0} };

    fn item_of<'a>(
        &mut self,
        alloc: Global,
        before: &[Column],
        bytes: &'a [u8],
    ) -> Result<(Column, &'a [u8]), ReadFault> {
        let (name, rest) = name_of(alloc, bytes)?;
        let taken = has_column(name.as_slice(), self.columns)
            || has_column(name.as_slice(), before);
        if taken {
            return Err(ReadFault::Broken(bytes.len()));
        }
        let (kind, rest) = kind_of(Place::Tag, rest)?;
        Ok((Column { name, kind }, rest))
    }
}

/// The tags of a supertable with these columns: a count of 16 bits, and so many.
#[tactic(auto, unfolding(crate::specs::Columns::tags_field))]
pub(crate) fn tags_of<'a>(
    alloc: Global,
    columns: &[Column],
    bytes: &'a [u8],
) -> Result<(Seq<Column>, &'a [u8]), ReadFault>
    ensures { Gives (λ x. (x.0, x.1.now)) result ((tags_field columns.now).read bytes.now) }
{
    let (count, rest) = u16_of(bytes)?;
    if !(1 <= count && count as usize <= TAGS) {
        return Err(ReadFault::Broken(bytes.len()));
    }
    let (tags, rest) = items_of(alloc, &mut Tags { columns }, count as u32, rest)?;
    Ok((tags, rest))
}
