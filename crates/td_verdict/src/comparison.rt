//! A condition of a query, found in a schema.
use td_layer::Cell;
use td_model::Op;

/// A comparison of a row's cell: the cell's place in the row, the operator, and the cell that it is compared with. A
/// row's cells are its table's name, at place 0, then its columns, from place 1 on, then its table's tags.
#[derive(Debug, Drop)]
pub struct Comparison {
    pub place: usize,
    pub op: Op,
    pub operand: Cell,
}
