//! What is true of tallies and aggregates besides, said by functions that do nothing.
ghost use Rattle.std.specs.Prelude.{◌≡◌, ◌≤◌, ℤ, List, [], ◌∷◌, ◌++◌, length};
ghost use Rattle.std.specs.List.{AllByRecursion};
ghost use Rattle.std.specs.List.Sorted.{IsPermutation};
ghost use Rattle.td_layer.specs.declared.values.Key.{Key};
ghost use Rattle.td_layer.specs.declared.values.Value.{Value};
ghost use Rattle.td_layer.specs.declared.values.Func.{Func};
ghost use Rattle.td_layer.specs.declared.values.Func.TheVariants as func;
ghost use Rattle.td_layer.specs.declared.values.Cell.TheVariants as cell;
ghost use Rattle.td_layer.specs.Columns.{IsColumnValue};
ghost use Rattle.td_aggr.specs.Aggregates.{aggregate, not_null, HaveOwnKeys, IsInRowOrder};
ghost use Rattle.td_aggr.specs.Tallies.{IsSound, tally_of};

/// The tally of a list counts the rows, and of these at most all as numbers. It is sound where each value is one that a
/// column can hold, so its sum lies between -2^64 and 2^64 times its count.
pub fn tally_of_a_list()
    ensures rows { (rows : List (Key × Value)) → (tally_of rows).rows ≡ length rows }
    ensures count { (rows : List (Key × Value)) → (tally_of rows).count ≤ length rows }
    ensures sound { (rows : List (Key × Value)) → AllByRecursion (λ r. IsColumnValue r.1) rows
        → IsSound (tally_of rows) }
{}

/// Rows of which no two have one key have the same aggregates in whatever order they are listed. So a tally that was
/// merged of parts whose rows interleave shows the aggregates of all of them in the order of rows.
pub fn aggregates_in_any_order()
    ensures { (f : Func) (xs ys : List (Key × Value)) → HaveOwnKeys xs → IsPermutation xs ys
        → aggregate f ys ≡ aggregate f xs }
{}

/// In a list that stands in the order of rows, no two have one key, and FIRST and LAST are the ends of what isn't NULL.
pub fn ends_in_row_order()
    ensures own_keys { (rows : List (Key × Value)) → IsInRowOrder rows → HaveOwnKeys rows }
    ensures first { (rows : List (Key × Value)) (p : Key × ℤ) (ps : List (Key × ℤ)) → IsInRowOrder rows
        → not_null rows ≡ p ∷ ps → aggregate func.First rows ≡ cell.Num p.1 }
    ensures last { (rows : List (Key × Value)) (ps : List (Key × ℤ)) (p : Key × ℤ) → IsInRowOrder rows
        → not_null rows ≡ ps ++ p ∷ [] → aggregate func.Last rows ≡ cell.Num p.1 }
{}
