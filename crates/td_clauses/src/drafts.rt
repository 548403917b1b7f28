//! Parts of queries on their way into trees.
use td_layer::Seq;
use td_model::{Cond, Lit, Op, OrderBy, PartBy, WindowDef};

// What is asked of a column or a tag.
#[derive(Drop)]
pub(crate) enum Test {
    Is(Op, Lit),
    Between(Lit, Lit),
}

#[derive(Drop)]
pub(crate) struct Clause {
    pub of: PartBy,
    pub test: Test,
}

// How an answer is cut.
#[derive(Clone, Copy)]
pub(crate) struct Cut {
    pub limit: Option<i128>,
    pub skip: i128,
}

// What follows the source of a query.
#[derive(Drop)]
pub(crate) struct Clauses {
    pub conds: Seq<Cond>,
    pub parts: Seq<PartBy>,
    pub window: WindowDef,
    pub order: OrderBy,
    pub cut: Cut,
}
