//! Statements.
use crate::printed::{push_query, push_stmt, push_stream};
use std::alloc::Global;
use td_cases::{CaseFault, Out};
use td_layer::{Copied, Seq};
use td_model::{Query, Stmt, StreamDef};
use td_parse::statement;

/// What a case asks of a text's tree.
#[derive(Clone, Copy)]
pub(crate) enum Asked {
    /// `statement TEXT`: the tree, or the cause that there is none.
    Tree,
    /// `copy TEXT`: the copy of its query or its stream.
    Copy,
}

/// What is printed of the tree of a text.
pub(crate) fn tree_of(alloc: Global, text: &[u8], what: Asked) -> Result<Seq<u8>, CaseFault> {
    let tree = statement(alloc, text)?;
    let answer = shown(alloc, &tree, what);
    drop(tree);
    answer
}

fn shown(alloc: Global, tree: &Stmt, what: Asked) -> Result<Seq<u8>, CaseFault> {
    match what {
        Asked::Tree => printed(alloc, tree),
        Asked::Copy => copied(alloc, tree),
    }
}

fn printed(alloc: Global, tree: &Stmt) -> Result<Seq<u8>, CaseFault> {
    let mut out = Out::new(alloc);
    push_stmt(&mut out, tree);
    Ok(out.text()?)
}

fn copied(alloc: Global, tree: &Stmt) -> Result<Seq<u8>, CaseFault> {
    match tree {
        Stmt::Select(query) => query_copied(alloc, query),
        Stmt::MakeStream(def) => stream_copied(alloc, def),
        _ => Err(CaseFault::Unread),
    }
}

fn query_copied(alloc: Global, query: &Query) -> Result<Seq<u8>, CaseFault> {
    let copy = query.copy()?;
    let mut out = Out::new(alloc);
    push_query(&mut out, &copy);
    drop(copy);
    Ok(out.text()?)
}

fn stream_copied(alloc: Global, def: &StreamDef) -> Result<Seq<u8>, CaseFault> {
    let copy = def.copy()?;
    let mut out = Out::new(alloc);
    push_stream(&mut out, &copy);
    drop(copy);
    Ok(out.text()?)
}
