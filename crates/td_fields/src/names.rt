//! Names of columns, and which columns may stand where.
ghost use Rattle.std.specs.Prelude.{◌≡◌, ◌++◌, OnOk};
ghost use Rattle.std.specs.Option.{option_copied};
ghost use Rattle.std.specs.Str.{bytes_eq};
ghost use Rattle.td_verdict.specs.Names.{is_first, is_named, is_time, lacks_time, names_of, column_named};
ghost use Rattle.td_verdict.specs.Values.{width_of, is_column_kind, is_tag_kind};
ghost use Rattle.td_verdict.specs.Writes.{place_of};

use td_layer::{Copied, Name, NoMem, Seq};
use td_limits::TAG_BYTES;
use td_model::{Column, Kind};

/// Whether two names are one.
pub fn same(a: &Name, b: &Name) -> bool
    ensures { result ≡ bytes_eq a.now b.now }
{
    a.as_slice() == b.as_slice()
}

/// The column of a name.
pub fn column_named<'a>(columns: &'a [Column], name: &Name) -> Option<&'a Column>
    ensures { option_copied result ≡ column_named columns.now name.now }
{
    columns.iter().find(|column| same(&column.name, name))
}

/// The place of the column of a name, from 0.
pub fn place_of(columns: &[Column], name: &Name) -> Option<usize>
    ensures { result ≡ place_of columns.now name.now }
{
    columns.iter().position(|column| same(&column.name, name))
}

/// Whether the columns' first has a name.
pub fn is_first(columns: &[Column], name: &Name) -> bool
    ensures { result ≡ is_first columns.now name.now }
{
    match columns {
        [first, ..] => same(&first.name, name),
        [] => false,
    }
}

/// Whether a kind is TIMESTAMP.
pub fn is_time(kind: Kind) -> bool
    ensures { result ≡ is_time kind }
{
    matches!(kind, Kind::Time)
}

/// Whether the first column isn't a TIMESTAMP.
pub fn lacks_time(columns: &[Column]) -> bool
    ensures { result ≡ lacks_time columns.now }
{
    match columns {
        [first, ..] => !is_time(first.kind),
        [] => true,
    }
}

// The bytes that a text of a kind may have.
pub(crate) fn width_of(kind: Kind) -> Option<u16>
    ensures { result ≡ width_of kind }
{
    match kind {
        Kind::Text(width) => Some(width),
        _ => None,
    }
}

/// Whether a column can have a kind: it has numbers of a fixed width that files can keep.
pub fn is_column_kind(kind: Kind) -> bool
    ensures { result ≡ is_column_kind kind }
{
    !matches!(kind, Kind::Wide | Kind::Text(_))
}

/// Whether a tag can have a kind: a column can have it, or it is a text of 1 byte or more and not too many.
pub fn is_tag_kind(kind: Kind) -> bool
    ensures { result ≡ is_tag_kind kind }
{
    match kind {
        Kind::Text(width) => 1 <= width && u32::from(width) <= TAG_BYTES,
        _ => is_column_kind(kind),
    }
}

/// Adds copies of the columns' names.
pub fn add_names(names: &mut Seq<Name>, columns: &[Column]) -> Result<(), NoMem>
    ensures { OnOk result (names.new ≡ names.old ++ names_of columns.now) }
{
    for column in columns {
        let name = column.name.copy()?;
        names.add(name)?;
    }
    Ok(())
}
