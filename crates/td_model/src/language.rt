//! The trees of the statement language, after TDengine's SQL manual where the words are its.
use crate::catalog::Column;
use crate::report::Cause;
use td_layer::{Copied, Func, Name, NoMem, Seq};

/// A literal.
#[derive(Debug, Drop)]
pub enum Lit {
    Null,
    True,
    False,
    Now,
    Num(i128),
    Str(Name),
}

/// What an item of a select list gives.
#[derive(Debug, Drop)]
pub enum ItemKind {
    Col(Name),
    TbName,
    WStart,
    WEnd,
    CountAll,
    Fun(Func, Name),
}

/// An item of a select list, with its alias.
#[derive(Debug, Drop)]
pub struct Item {
    pub what: ItemKind,
    pub alias: Option<Name>,
}

/// A comparison.
#[derive(Clone, Copy, Debug, PartialEq, Eq)]
pub enum Op {
    Lt,
    Le,
    Gt,
    Ge,
    Eq,
    Ne,
    IsNull,
    NotNull,
}

/// What a partition or a condition is of. In a condition `Tag` names a column or a tag.
#[derive(Debug, Drop)]
pub enum PartBy {
    Tag(Name),
    TbName,
}

/// A condition. The literal of `IsNull` and `NotNull` is `Null`.
#[derive(Debug, Drop)]
pub struct Cond {
    pub of: PartBy,
    pub op: Op,
    pub lit: Lit,
}

/// The windows of a query. Durations are in milliseconds.
#[derive(Debug, Drop)]
pub enum WindowDef {
    Whole,
    Interval { len: u64, offset: u64, slide: u64 },
    Session { column: Name, tol: u64 },
    State { column: Name },
}

/// The order of an answer.
#[derive(Debug, Drop)]
pub enum OrderBy {
    Plain,
    Asc(Name),
    Desc(Name),
}

/// A query. `skip` is the OFFSET.
#[derive(Debug, Drop)]
pub struct Query {
    pub star: bool,
    pub items: Seq<Item>,
    pub source: Name,
    pub conds: Seq<Cond>,
    pub parts: Seq<PartBy>,
    pub window: WindowDef,
    pub order: OrderBy,
    pub skip: i128,
    pub limit: Option<i128>,
}

/// When a stream shows its windows; the delay is in milliseconds.
#[derive(Clone, Copy, Debug, PartialEq, Eq)]
pub enum Trigger {
    AtOnce,
    WindowClose,
    MaxDelay(u64),
}

/// A stream: its trigger, its watermark in milliseconds, its target and its query.
#[derive(Debug, Drop)]
pub struct StreamDef {
    pub name: Name,
    pub trigger: Trigger,
    pub watermark: u64,
    pub ignore_expired: bool,
    pub fill_history: bool,
    pub target: Name,
    pub query: Query,
}

/// A statement, or why its text is none.
#[derive(Debug, Drop)]
pub enum Stmt {
    Wrong(Cause),
    MakeStable {
        name: Name,
        columns: Seq<Column>,
        tags: Option<Seq<Column>>,
    },
    MakeTable {
        name: Name,
        columns: Seq<Column>,
    },
    MakeSub {
        name: Name,
        stable: Name,
        tags: Seq<Lit>,
    },
    Insert {
        table: Name,
        columns: Option<Seq<Name>>,
        rows: Seq<Seq<Lit>>,
    },
    Delete {
        table: Name,
        column: Name,
        lo: Lit,
        hi: Lit,
    },
    MakeStream(StreamDef),
    DropStream {
        name: Name,
    },
    Trim,
    Select(Query),
    OpenCursor {
        cursor: Name,
        query: Query,
    },
    Fetch {
        cursor: Name,
        rows: i128,
    },
    CloseCursor {
        cursor: Name,
    },
    Commit,
    Merge,
    Sweep,
    Step {
        stream: Name,
    },
}

impl Copied for Lit {
    fn copy(&self) -> Result<Lit, NoMem> {
        match self {
            Lit::Null => Ok(Lit::Null),
            Lit::True => Ok(Lit::True),
            Lit::False => Ok(Lit::False),
            Lit::Now => Ok(Lit::Now),
            Lit::Num(n) => Ok(Lit::Num(*n)),
            Lit::Str(text) => {
                let text = text.copy()?;
                Ok(Lit::Str(text))
            }
        }
    }
}

impl Copied for ItemKind {
    fn copy(&self) -> Result<ItemKind, NoMem> {
        match self {
            ItemKind::Col(name) => {
                let name = name.copy()?;
                Ok(ItemKind::Col(name))
            }
            ItemKind::TbName => Ok(ItemKind::TbName),
            ItemKind::WStart => Ok(ItemKind::WStart),
            ItemKind::WEnd => Ok(ItemKind::WEnd),
            ItemKind::CountAll => Ok(ItemKind::CountAll),
            ItemKind::Fun(func, name) => {
                let name = name.copy()?;
                Ok(ItemKind::Fun(*func, name))
            }
        }
    }
}

impl Copied for Item {
    fn copy(&self) -> Result<Item, NoMem> {
        let what = self.what.copy()?;
        let alias = self.alias.copy()?;
        Ok(Item { what, alias })
    }
}

impl Copied for PartBy {
    fn copy(&self) -> Result<PartBy, NoMem> {
        match self {
            PartBy::Tag(name) => {
                let name = name.copy()?;
                Ok(PartBy::Tag(name))
            }
            PartBy::TbName => Ok(PartBy::TbName),
        }
    }
}

impl Copied for Cond {
    fn copy(&self) -> Result<Cond, NoMem> {
        let of = self.of.copy()?;
        let lit = self.lit.copy()?;
        Ok(Cond {
            of,
            op: self.op,
            lit,
        })
    }
}

impl Copied for WindowDef {
    fn copy(&self) -> Result<WindowDef, NoMem> {
        match self {
            WindowDef::Whole => Ok(WindowDef::Whole),
            WindowDef::Interval { len, offset, slide } => Ok(WindowDef::Interval {
                len: *len,
                offset: *offset,
                slide: *slide,
            }),
            WindowDef::Session { column, tol } => {
                let column = column.copy()?;
                Ok(WindowDef::Session { column, tol: *tol })
            }
            WindowDef::State { column } => {
                let column = column.copy()?;
                Ok(WindowDef::State { column })
            }
        }
    }
}

impl Copied for OrderBy {
    fn copy(&self) -> Result<OrderBy, NoMem> {
        match self {
            OrderBy::Plain => Ok(OrderBy::Plain),
            OrderBy::Asc(name) => {
                let name = name.copy()?;
                Ok(OrderBy::Asc(name))
            }
            OrderBy::Desc(name) => {
                let name = name.copy()?;
                Ok(OrderBy::Desc(name))
            }
        }
    }
}

impl Copied for Query {
    fn copy(&self) -> Result<Query, NoMem> {
        let items = self.items.copy()?;
        let source = self.source.copy()?;
        let conds = self.conds.copy()?;
        let parts = self.parts.copy()?;
        let window = self.window.copy()?;
        let order = self.order.copy()?;
        Ok(Query {
            star: self.star,
            items,
            source,
            conds,
            parts,
            window,
            order,
            skip: self.skip,
            limit: self.limit,
        })
    }
}

impl Copied for StreamDef {
    fn copy(&self) -> Result<StreamDef, NoMem> {
        let name = self.name.copy()?;
        let target = self.target.copy()?;
        let query = self.query.copy()?;
        Ok(StreamDef {
            name,
            trigger: self.trigger,
            watermark: self.watermark,
            ignore_expired: self.ignore_expired,
            fill_history: self.fill_history,
            target,
            query,
        })
    }
}
