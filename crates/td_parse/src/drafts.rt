//! Parts of statements on their way into trees.
use td_layer::{Name, Seq};
use td_model::{Column, Lit, Trigger};

// What follows the name in CREATE TABLE: the columns of a plain table, those of a supertable with its tags, or the
// supertable of a subtable with its tags.
#[derive(Drop)]
pub(crate) enum Body {
    Plain(Seq<Column>),
    Super(Seq<Column>, Seq<Column>),
    Sub(Name, Seq<Lit>),
}

// One option of a stream.
#[derive(Clone, Copy)]
pub(crate) enum StreamOption {
    Trigger(Trigger),
    Watermark(u64),
    Expired(bool),
    History(bool),
}

// The options of a stream that are given.
#[derive(Clone, Copy)]
pub(crate) struct Options {
    pub trigger: Option<Trigger>,
    pub watermark: Option<u64>,
    pub expired: Option<bool>,
    pub history: Option<bool>,
}
