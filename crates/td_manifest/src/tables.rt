//! Supertables and tables.
ghost use Rattle.std.specs.Prelude.{◌≡◌, ◌+◌, ◌==◌, ◌∷◌, ◌++◌, List, IfOk, length, nat_le};
ghost use Rattle.std.specs.Int.{w32};
ghost use Rattle.td_codec.specs.Fields.{Gives, checked, number};
ghost use Rattle.td_codec.specs.Values.{truth, text};
ghost use Rattle.td_manifest.specs.Listed.{perhaps};
ghost use Rattle.td_manifest.specs.Heads.{begun, stables_field, tables_field};
ghost use Rattle.td_manifest.specs.Tables.{latest_field, schema_field, stable_names, stable_items, suits, is_tag_text, tag_cell, tag_cell_items, tag_cells, tags_of, table_body, table_with, table_names, table_items};

use crate::columns::{columns_of, tags_of};
use crate::head::{HeadStable, HeadTable};
use crate::lists::{ItemReader, items_of};
use crate::names::{Names, free_name_of};
use std::alloc::Global;
use td_codec::{ReadFault, i128_of, is_printable, u8_of, u16_of, u32_of, u64_of};
use td_cols::{Kind, in_range};
use td_layer::{Cell, Name, Seq};
use td_limits::{LAST_TIMESTAMP, TABLES};
use td_model::{Column, Schema};

/// What stands behind the name of a table.
#[derive(Drop)]
pub(crate) enum TableBody {
    Plain {
        columns: Seq<Column>,
        latest: Option<u64>,
    },
    Sub {
        stable: u32,
        tags: Seq<Cell>,
    },
}

/// Whether a head of a version may have such a first value: of version 0 there is only the empty head.
pub(crate) fn begun(version: u64, is_first: bool) -> bool
    ensures { result ≡ begun version is_first }
{
    0 < version || is_first
}

/// The greatest timestamp that was ever put, or none.
#[tactic(auto, unfolding(crate::specs::Tables::latest_field, crate::specs::Listed::perhaps))]
fn latest_of(bytes: &[u8]) -> Result<(Option<u64>, &[u8]), ReadFault>
    ensures { Gives (λ x. (x.0, x.1.now)) result (latest_field.read bytes.now) }
{
    let (latest, rest) = u64_of(bytes)?;
    if latest == u64::MAX {
        return Ok((None, rest));
    }
    if latest <= LAST_TIMESTAMP {
        return Ok((Some(latest), rest));
    }
    Err(ReadFault::Broken(bytes.len()))
}

// ---- supertables

/// Columns and tags.
#[tactic(auto, unfolding(crate::specs::Tables::schema_field))]
fn schema_of(alloc: Global, bytes: &[u8]) -> Result<(Schema, &[u8]), ReadFault>
    ensures { Gives (λ x. (x.0, x.1.now)) result (schema_field.read bytes.now) }
{
    let (columns, rest) = columns_of(alloc, bytes)?;
    let (tags, rest) = tags_of(alloc, columns.as_slice(), rest)?;
    Ok((Schema { columns, tags }, rest))
}

/// Reads supertables, whose names differ.
#[derive(Drop)]
struct Stables {
    names: Names,
}

#[tactic(auto, unfolding(crate::specs::Tables::stable_items, crate::specs::Tables::stable_behind))]
impl ItemReader for Stables {
    type Item = HeadStable;

    ghost items = { λ _. stable_items };

    ghost knows = { λ r before. r.names ≡ stable_names before };

    fn item_of<'a>(
        &mut self,
        alloc: Global,
        _before: &[HeadStable],
        bytes: &'a [u8],
    ) -> Result<(HeadStable, &'a [u8]), ReadFault> {
        let (name, rest) = free_name_of(alloc, &mut self.names, bytes)?;
        let (schema, rest) = schema_of(alloc, rest)?;
        let (latest, rest) = latest_of(rest)?;
        Ok((
            HeadStable {
                name,
                schema,
                latest,
            },
            rest,
        ))
    }
}

/// The supertables of a head of this version, and their names.
#[tactic(auto, unfolding(crate::specs::Heads::stables_field))]
pub(crate) fn stables_of(
    alloc: Global,
    version: u64,
    bytes: &[u8],
) -> Result<((Seq<HeadStable>, Names), &[u8]), ReadFault>
    ensures read { Gives (λ x. (x.0.0, x.1.now)) result ((stables_field version).read bytes.now) }
    ensures names { IfOk result (λ x. x.0.1 ≡ stable_names x.0.0) }
{
    let (count, rest) = u32_of(bytes)?;
    if !(count as usize <= TABLES && begun(version, count == 0)) {
        return Err(ReadFault::Broken(bytes.len()));
    }
    let mut reader = Stables {
        names: Names::new(alloc),
    };
    let (stables, rest) = items_of(alloc, &mut reader, count, rest)?;
    Ok(((stables, reader.names), rest))
}

// ---- the tags of a subtable

/// Whether a cell of a code suits a kind.
fn suits(kind: Kind, code: u8) -> bool
    ensures { result ≡ suits kind code }
{
    let own = match kind {
        Kind::Bool => 1,
        Kind::Text(_) => 4,
        _ => 2,
    };
    code == 0 || code == own
}

/// Whether a tag of a kind can hold a text.
fn is_tag_text(kind: Kind, bytes: &[u8]) -> bool
    ensures { result ≡ is_tag_text kind bytes.now }
{
    let most = match kind {
        Kind::Text(size) => size,
        _ => 0,
    };
    is_printable(bytes) && bytes.len() <= most as usize
}

/// A truth value, 0 or 1.
#[tactic(auto, unfolding(td_codec::specs::Values::truth))]
fn truth_of(bytes: &[u8]) -> Result<(bool, &[u8]), ReadFault>
    ensures { Gives (λ x. (x.0, x.1.now)) result (truth.read bytes.now) }
{
    let (number, rest) = u8_of(bytes)?;
    if number < 2 {
        return Ok((number == 1, rest));
    }
    Err(ReadFault::Broken(bytes.len()))
}

/// A text that a tag of a kind can hold.
#[tactic(auto, unfolding(td_codec::specs::Values::text, td_codec::specs::Fields::string_read))]
fn tag_text_of(alloc: Global, kind: Kind, bytes: &[u8]) -> Result<(Name, &[u8]), ReadFault>
    ensures { Gives (λ x. (x.0, x.1.now)) result ((text (is_tag_text kind)).read bytes.now) }
{
    let (size, rest) = u16_of(bytes)?;
    let size = size as usize;
    if rest.len() < size {
        return Err(ReadFault::Broken(bytes.len()));
    }
    let (front, rest) = rest.split_at(size);
    if !is_tag_text(kind, front) {
        return Err(ReadFault::Broken(bytes.len()));
    }
    let text = Seq::of_bytes(alloc, front)?;
    Ok((text, rest))
}

/// A cell that suits a tag of a kind.
#[tactic(auto, unfolding(crate::specs::Tables::tag_cell, crate::specs::Tables::tag_form))]
fn tag_cell_of(alloc: Global, kind: Kind, bytes: &[u8]) -> Result<(Cell, &[u8]), ReadFault>
    ensures { Gives (λ x. (x.0, x.1.now)) result ((tag_cell kind).read bytes.now) }
{
    let (code, rest) = u8_of(bytes)?;
    if !suits(kind, code) {
        return Err(ReadFault::Broken(bytes.len()));
    }
    match code {
        0 => Ok((Cell::Null, rest)),
        1 => {
            let (truth, rest) = truth_of(rest)?;
            Ok((Cell::Truth(truth), rest))
        }
        2 => {
            let (number, after) = i128_of(rest)?;
            if !in_range(kind, number) {
                return Err(ReadFault::Broken(rest.len()));
            }
            Ok((Cell::Num(number), after))
        }
        4 => {
            let (text, rest) = tag_text_of(alloc, kind, rest)?;
            Ok((Cell::Str(text), rest))
        }
        _ => Err(ReadFault::Broken(rest.len())),
    }
}

/// Reads a cell for each of these tags.
#[derive(Drop)]
struct TagCells<'t> {
    tags: &'t [Column],
}

#[tactic(auto, unfolding(crate::specs::Tables::tag_cell_items))]
impl<'t> ItemReader for TagCells<'t> {
    type Item = Cell;

    ghost items = { λ r. tag_cell_items r.tags.now };

    ghost knows = { λ _ _. Unit {0} };

    fn item_of<'a>(
        &mut self,
        alloc: Global,
        before: &[Cell],
        bytes: &'a [u8],
    ) -> Result<(Cell, &'a [u8]), ReadFault> {
        match self.tags.get(before.len()) {
            None => Err(ReadFault::Broken(bytes.len())),
            Some(tag) => {
                let (cell, rest) = tag_cell_of(alloc, tag.kind, bytes)?;
                Ok((cell, rest))
            }
        }
    }
}

/// The cells of a subtable with these tags: a count of 16 bits, and one for each.
#[tactic(auto, unfolding(crate::specs::Tables::tag_cells))]
fn tag_cells_of<'a>(
    alloc: Global,
    tags: &[Column],
    bytes: &'a [u8],
) -> Result<(Seq<Cell>, &'a [u8]), ReadFault>
    ensures { Gives (λ x. (x.0, x.1.now)) result ((tag_cells tags.now).read bytes.now) }
{
    let (count, rest) = u16_of(bytes)?;
    if count as usize != tags.len() {
        return Err(ReadFault::Broken(bytes.len()));
    }
    let (cells, rest) = items_of(alloc, &mut TagCells { tags }, count as u32, rest)?;
    Ok((cells, rest))
}

// ---- tables

/// The tags of the supertable of a number, from 1; none where there is none.
fn tags_in(stables: &[HeadStable], number: u32) -> &[Column]
    ensures { result.now ≡ tags_of stables.now number }
{
    match stables.get((number as usize).saturating_sub(1)) {
        None => &[],
        Some(stable) => stable.schema.tags.as_slice(),
    }
}

/// The number of one of these supertables, or 0.
fn stable_number_of<'a>(
    stables: &[HeadStable],
    bytes: &'a [u8],
) -> Result<(u32, &'a [u8]), ReadFault>
    ensures { Gives (λ x. (x.0, x.1.now)) result
        ((checked (number w32) (λ n. nat_le n (length stables.now))).read bytes.now) }
{
    let (number, rest) = u32_of(bytes)?;
    if number as usize <= stables.len() {
        return Ok((number, rest));
    }
    Err(ReadFault::Broken(bytes.len()))
}

/// What stands behind the name of a table over these supertables.
#[tactic(auto, unfolding(crate::specs::Tables::table_body, crate::specs::Tables::body_form))]
fn body_of<'a>(
    alloc: Global,
    stables: &[HeadStable],
    bytes: &'a [u8],
) -> Result<(TableBody, &'a [u8]), ReadFault>
    ensures { Gives (λ x. (x.0, x.1.now)) result ((table_body stables.now).read bytes.now) }
{
    let (stable, rest) = stable_number_of(stables, bytes)?;
    if stable == 0 {
        let (columns, rest) = columns_of(alloc, rest)?;
        let (latest, rest) = latest_of(rest)?;
        return Ok((TableBody::Plain { columns, latest }, rest));
    }
    let (tags, rest) = tag_cells_of(alloc, tags_in(stables, stable), rest)?;
    Ok((TableBody::Sub { stable, tags }, rest))
}

/// A table of a name.
fn table_with(name: Name, body: TableBody) -> HeadTable
    ensures { result ≡ table_with name body }
{
    match body {
        TableBody::Plain { columns, latest } => HeadTable::Plain {
            name,
            columns,
            latest,
        },
        TableBody::Sub { stable, tags } => HeadTable::Sub { name, stable, tags },
    }
}

/// Reads tables over these supertables, whose names differ from each other and from theirs.
#[derive(Drop)]
struct Tables<'s> {
    stables: &'s [HeadStable],
    names: Names,
}

#[tactic(auto, unfolding(crate::specs::Tables::table_items, crate::specs::Tables::table_behind))]
impl<'s> ItemReader for Tables<'s> {
    type Item = HeadTable;

    ghost items = { λ r. table_items r.stables.now };

    ghost knows = { λ r before. r.names ≡ stable_names r.stables.now ++ table_names before };

    fn item_of<'a>(
        &mut self,
        alloc: Global,
        _before: &[HeadTable],
        bytes: &'a [u8],
    ) -> Result<(HeadTable, &'a [u8]), ReadFault> {
        let (name, rest) = free_name_of(alloc, &mut self.names, bytes)?;
        let (body, rest) = body_of(alloc, self.stables, rest)?;
        Ok((table_with(name, body), rest))
    }
}

/// The tables of a head of this version over its supertables, which have these names.
#[tactic(auto, unfolding(crate::specs::Heads::tables_field))]
pub(crate) fn tables_of<'a>(
    alloc: Global,
    version: u64,
    stables: &[HeadStable],
    names: Names,
    bytes: &'a [u8],
) -> Result<(Seq<HeadTable>, &'a [u8]), ReadFault>
    requires { names ≡ stable_names stables.now }
    ensures { Gives (λ x. (x.0, x.1.now)) result ((tables_field version stables.now).read bytes.now) }
{
    let (count, rest) = u32_of(bytes)?;
    let few = stables.len() <= TABLES && count as usize <= TABLES - stables.len();
    if !(few && begun(version, count == 0)) {
        return Err(ReadFault::Broken(bytes.len()));
    }
    let mut reader = Tables { stables, names };
    let (tables, rest) = items_of(alloc, &mut reader, count, rest)?;
    Ok((tables, rest))
}
