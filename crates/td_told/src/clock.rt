//! Which statements read the clock.
ghost use Rattle.std.specs.Prelude.{◌≡◌};
ghost use Rattle.td_told.specs.Verdict.{reads_clock};

use td_model::Stmt;

/// Whether a statement's turn reads the clock: that of a write and of a text that is no statement does, once; that of a
/// query doesn't.
pub fn reads_clock(stmt: &Stmt) -> bool
    ensures { result ≡ reads_clock stmt.now }
{
    matches!(stmt, Stmt::Wrong(_)) || stmt.is_write()
}
