//! Which statements are writes, and which are built.
ghost use Rattle.std.specs.Prelude.{◌≡◌};
ghost use Rattle.std.specs.List.{list_any};
ghost use Rattle.td_model.specs.declared.language.Item.{Item};
ghost use Rattle.td_model.specs.Built.{is_aggregate, is_whole, is_row_query, is_write, is_built};

use crate::language::{Item, ItemKind, Query, Stmt, WindowDef};

impl ItemKind {
    /// Whether an item is an aggregate.
    pub fn is_aggregate(&self) -> bool
        ensures { result ≡ is_aggregate self.now }
    {
        matches!(self, ItemKind::CountAll | ItemKind::Fun(_, _))
    }
}

impl WindowDef {
    /// Whether a query has no window clause.
    pub fn is_whole(&self) -> bool
        ensures { result ≡ is_whole self.now }
    {
        matches!(self, WindowDef::Whole)
    }
}

/// Whether one of the items is an aggregate.
pub fn has_aggregate(items: &[Item]) -> bool
    ensures { result ≡ list_any (λ (i : Item). is_aggregate i.what) items.now }
{
    items.iter().any(|item| item.what.is_aggregate())
}

impl Query {
    /// Whether a query has no aggregate, no window and no PARTITION BY.
    pub fn is_row_query(&self) -> bool
        ensures { result ≡ is_row_query self.now }
    {
        !has_aggregate(self.items.as_slice()) && self.window.is_whole() && self.parts.is_empty()
    }
}

impl Stmt {
    /// Whether a statement is a write: CREATE, INSERT, DELETE, DROP or TRIM.
    pub fn is_write(&self) -> bool
        ensures { result ≡ is_write self.now }
    {
        matches!(
            self,
            Stmt::MakeStable { .. }
                | Stmt::MakeTable { .. }
                | Stmt::MakeSub { .. }
                | Stmt::Insert { .. }
                | Stmt::Delete { .. }
                | Stmt::MakeStream(_)
                | Stmt::DropStream { .. }
                | Stmt::Trim
        )
    }

    /// Whether a statement is of a form that is built. Any other is refused as not built.
    pub fn is_built(&self) -> bool
        ensures { result ≡ is_built self.now }
    {
        match self {
            Stmt::MakeStream(_)
            | Stmt::OpenCursor { .. }
            | Stmt::Fetch { .. }
            | Stmt::CloseCursor { .. }
            | Stmt::Commit
            | Stmt::Merge
            | Stmt::Sweep
            | Stmt::Step { .. } => false,
            _ => true,
        }
    }
}
