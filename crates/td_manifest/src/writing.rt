//! Writing a head.
ghost use Rattle.std.specs.Prelude.{◌≡◌, ◌<◌, ◌^◌, ◌++◌, Bool, List, ℕ, length, OnOk, IfOk, IsTrue, true, [], codes};
ghost use Rattle.std.specs.Int.{w16, w32, w64, to_le_bytes};
ghost use Rattle.std.specs.List.{flat_map, list_all};
ghost use Rattle.td_codec.specs.Fields.{number};
ghost use Rattle.td_codec.specs.Values.{cell};
ghost use Rattle.td_manifest.specs.Listed.{or_none};
ghost use Rattle.td_manifest.specs.Columns.{column_items, kind_field, columns_field};
ghost use Rattle.td_manifest.specs.Tables.{stable_items, table_items, table_bytes, tag_cells};
ghost use Rattle.td_manifest.specs.Files.{set_items};
ghost use Rattle.td_manifest.specs.Streams.{statement_text, stream_items};
ghost use Rattle.td_manifest.specs.Heads.{start_field, objects_field, head_body, IsHead};
ghost use Rattle.td_manifest.specs.Writing.{can_put_column, can_put_columns, can_put_cells, can_put_stable, can_put_table, can_put_set, can_put_stream, always};
ghost use Rattle.td_manifest.specs.declared.columns.Place.TheVariants.{First};

use crate::head::{Head, HeadSet, HeadStable, HeadStream, HeadTable};
use crate::reading::FORMAT;
use std::alloc::Global;
use td_codec::{put_cell, put_text, put_u8, put_u16, put_u32, put_u64, put_win_rows};
use td_cols::{Kind, code};
use td_layer::{Cell, Name, NoMem, Seq};
use td_model::Column;

/// A value that stands as bytes.
pub(crate) trait Put {
    /// Its bytes.
    ghost spelled: { Self → List ℕ };

    /// Whether its texts, counts and cells fit their fields.
    ghost can_put: { Self → Bool };

    /// Adds its bytes.
    fn put(&self, out: &mut Name) -> Result<(), NoMem>
        requires { IsTrue (can_put self.now) }
        ensures { OnOk result (out.new ≡ out.old ++ spelled self.now) };
}

/// Adds items one behind the other.
fn put_all<T: Put>(out: &mut Name, items: &[T]) -> Result<(), NoMem>
    requires { IsTrue (list_all T.can_put items.now) }
    ensures { OnOk result (out.new ≡ out.old ++ flat_map T.spelled items.now) }
{
    for item in items {
        item.put(out)?;
    }
    Ok(())
}

/// Adds a list: its count in 32 bits, and its items.
#[tactic(auto, using(std::proofs::lemmas::List::append_assoc))]
pub(crate) fn put_list<T: Put>(out: &mut Name, items: &[T]) -> Result<(), NoMem>
    requires few { length items.now < 2 ^ 32 }
    requires can_put { IsTrue (list_all T.can_put items.now) }
    ensures { OnOk result (out.new ≡ out.old ++ (to_le_bytes w32 (length items.now) ++ flat_map T.spelled items.now)) }
{
    put_u32(out, items.len() as u32)?;
    put_all(out, items)?;
    Ok(())
}

/// Adds a number of 64 bits, or the one that stands for none.
fn put_perhaps(out: &mut Name, number: Option<u64>) -> Result<(), NoMem>
    ensures { OnOk result (out.new ≡ out.old ++ to_le_bytes w64 (or_none number)) }
{
    match number {
        None => put_u64(out, u64::MAX)?,
        Some(number) => put_u64(out, number)?,
    }
    Ok(())
}

// ---- columns

/// Adds a kind: its code, and how many bytes a text has at most.
#[tactic(auto, using(std::proofs::lemmas::List::append_assoc, crate::proofs::WritingLaws::kind_bytes))]
fn put_kind(out: &mut Name, kind: Kind) -> Result<(), NoMem>
    ensures { OnOk result (out.new ≡ out.old ++ (kind_field First).spelled kind) }
{
    put_u8(out, code(kind))?;
    match kind {
        Kind::Text(size) => put_u16(out, size)?,
        _ => (),
    }
    Ok(())
}

#[tactic(auto, using(std::proofs::lemmas::List::append_assoc), unfolding(crate::specs::Columns::column_items, crate::specs::Columns::column_field, crate::specs::Names::new_name, td_codec::specs::Values::text))]
impl Put for Column {
    ghost spelled = { column_items.spelled };

    ghost can_put = { can_put_column };

    fn put(&self, out: &mut Name) -> Result<(), NoMem> {
        put_text(out, self.name.as_slice())?;
        put_kind(out, self.kind)?;
        Ok(())
    }
}

/// Adds columns: a count of 16 bits, and so many.
#[tactic(auto, using(std::proofs::lemmas::List::append_assoc), unfolding(crate::specs::Columns::columns_field))]
fn put_columns(out: &mut Name, columns: &[Column]) -> Result<(), NoMem>
    requires { IsTrue (can_put_columns columns.now) }
    ensures { OnOk result (out.new ≡ out.old ++ columns_field.spelled columns.now) }
{
    put_u16(out, columns.len() as u16)?;
    put_all(out, columns)?;
    Ok(())
}

// ---- supertables and tables

#[tactic(auto, using(std::proofs::lemmas::List::append_assoc), unfolding(crate::specs::Tables::stable_items, crate::specs::Tables::stable_behind, crate::specs::Tables::schema_field, crate::specs::Tables::latest_field, crate::specs::Listed::perhaps, crate::specs::Names::new_name, td_codec::specs::Values::text, crate::specs::Columns::columns_field, crate::specs::Columns::tags_field, crate::specs::Columns::column_items, crate::specs::Columns::tag_items, crate::specs::Writing::can_put_stable))]
impl Put for HeadStable {
    ghost spelled = { stable_items.spelled };

    ghost can_put = { can_put_stable };

    fn put(&self, out: &mut Name) -> Result<(), NoMem> {
        put_text(out, self.name.as_slice())?;
        put_columns(out, self.schema.columns.as_slice())?;
        put_columns(out, self.schema.tags.as_slice())?;
        put_perhaps(out, self.latest)?;
        Ok(())
    }
}

impl Put for Cell {
    ghost spelled = { cell.spelled };

    ghost can_put = { cell.fits };

    fn put(&self, out: &mut Name) -> Result<(), NoMem> {
        put_cell(out, self)?;
        Ok(())
    }
}

/// Adds the cells of tags: a count of 16 bits, and so many.
#[tactic(auto, using(std::proofs::lemmas::List::append_assoc), unfolding(crate::specs::Tables::tag_cells, crate::specs::Tables::tag_cell_items))]
fn put_tag_cells(out: &mut Name, cells: &[Cell]) -> Result<(), NoMem>
    requires { IsTrue (can_put_cells cells.now) }
    ensures { OnOk result (out.new ≡ out.old ++ (tag_cells []).spelled cells.now) }
{
    put_u16(out, cells.len() as u16)?;
    put_all(out, cells)?;
    Ok(())
}

#[tactic(auto, using(std::proofs::lemmas::List::append_assoc), unfolding(crate::specs::Tables::table_bytes, crate::specs::Tables::body_bytes, crate::specs::Tables::latest_field, crate::specs::Listed::perhaps, crate::specs::Names::new_name, td_codec::specs::Values::text, crate::specs::Writing::can_put_table))]
impl Put for HeadTable {
    ghost spelled = { table_bytes };

    ghost can_put = { can_put_table };

    fn put(&self, out: &mut Name) -> Result<(), NoMem> {
        match self {
            HeadTable::Plain {
                name,
                columns,
                latest,
            } => {
                put_text(out, name.as_slice())?;
                put_u32(out, 0)?;
                put_columns(out, columns.as_slice())?;
                put_perhaps(out, *latest)?;
            }
            HeadTable::Sub { name, stable, tags } => {
                put_text(out, name.as_slice())?;
                put_u32(out, *stable)?;
                put_tag_cells(out, tags.as_slice())?;
            }
        }
        Ok(())
    }
}

// ---- file sets and streams

impl Put for u64 {
    ghost spelled = { (number w64).spelled };

    ghost can_put = { always };

    fn put(&self, out: &mut Name) -> Result<(), NoMem> {
        put_u64(out, *self)?;
        Ok(())
    }
}

#[tactic(auto, using(std::proofs::lemmas::List::append_assoc, crate::proofs::WritingLaws::any_numbers), unfolding(crate::specs::Writing::can_put_set))]
impl Put for HeadSet {
    ghost spelled = { set_items.spelled };

    ghost can_put = { can_put_set };

    fn put(&self, out: &mut Name) -> Result<(), NoMem> {
        put_u32(out, self.range)?;
        put_perhaps(out, self.main)?;
        put_list(out, self.stt.as_slice())?;
        Ok(())
    }
}

/// Adds the text of a statement: its length in 32 bits, and its bytes.
#[tactic(auto, using(std::proofs::lemmas::List::append_assoc), unfolding(crate::specs::Streams::statement_text))]
fn put_statement(out: &mut Name, text: &[u8]) -> Result<(), NoMem>
    requires { length text.now < 2 ^ 32 }
    ensures { OnOk result (out.new ≡ out.old ++ statement_text.spelled text.now) }
{
    put_u32(out, text.len() as u32)?;
    out.extend(text)?;
    Ok(())
}

#[tactic(auto, unfolding(crate::specs::Writing::can_put_stream))]
impl Put for HeadStream {
    ghost spelled = { (stream_items 0 0).spelled };

    ghost can_put = { can_put_stream };

    fn put(&self, out: &mut Name) -> Result<(), NoMem> {
        put_u32(out, self.number)?;
        put_u64(out, self.made)?;
        put_statement(out, self.text.as_slice())?;
        put_u64(out, self.upto)?;
        put_u64(out, self.moment)?;
        put_win_rows(out, self.rows.as_slice())?;
        Ok(())
    }
}

// ---- the head

/// Adds what a head says before its objects.
pub(crate) fn put_start(out: &mut Name, head: &Head) -> Result<(), NoMem>
    ensures { OnOk result (out.new ≡ out.old
        ++ start_field.spelled (head.now.version, (head.now.moment, (head.now.first_log, head.now.edge)))) }
{
    put_u64(out, head.version)?;
    put_u64(out, head.moment)?;
    put_u64(out, head.first_log)?;
    put_u32(out, head.edge)?;
    Ok(())
}

/// Adds the objects of a head.
#[tactic(auto, using(std::proofs::lemmas::List::append_assoc), unfolding(crate::specs::Heads::objects_field, crate::specs::Heads::stables_field, crate::specs::Heads::tables_field, crate::specs::Heads::sets_field, crate::specs::Heads::streams_field, crate::specs::Tables::table_items, crate::specs::Streams::stream_items, crate::specs::Streams::stream_behind))]
fn put_objects(out: &mut Name, head: &Head) -> Result<(), NoMem>
    requires { IsTrue (head_body.fits head.now) }
    ensures { OnOk result (out.new ≡ out.old
        ++ (objects_field head.now.version).spelled
        ((head.now.stables, head.now.tables), (head.now.sets, (head.now.next_stream, head.now.streams)))) }
{
    put_list(out, head.stables.as_slice())?;
    put_list(out, head.tables.as_slice())?;
    put_list(out, head.sets.as_slice())?;
    put_u32(out, head.next_stream)?;
    put_list(out, head.streams.as_slice())?;
    Ok(())
}

/// Adds what stands behind the count of all bytes.
#[tactic(auto, using(std::proofs::lemmas::List::append_assoc), unfolding(crate::specs::Heads::head_body))]
fn put_rest(out: &mut Name, head: &Head) -> Result<(), NoMem>
    requires { IsTrue (head_body.fits head.now) }
    ensures { OnOk result (out.new ≡ out.old
        ++ (to_le_bytes w32 FORMAT ++ (head_body.spelled head.now ++ codes "TDHE"))) }
{
    put_u32(out, FORMAT)?;
    put_start(out, head)?;
    put_objects(out, head)?;
    out.extend(b"TDHE")?;
    Ok(())
}

/// The bytes of a head: the one spelling that it has.
#[tactic(auto, using(crate::proofs::WritingLaws::head_written))]
pub fn encode(alloc: Global, head: &Head) -> Result<Seq<u8>, NoMem>
    requires { IsTrue (head_body.fits head.now) }
    ensures { IfOk result (λ bytes. IsHead bytes head.now) }
{
    let mut rest = Seq::new(alloc);
    put_rest(&mut rest, head)?;
    let mut out = Seq::new(alloc);
    out.extend(b"TDH1")?;
    put_u64(&mut out, rest.len() as u64 + 12)?;
    out.extend(rest.as_slice())?;
    Ok(out)
}
