//! The lines of a core.
ghost use Rattle.std.specs.Prelude.{◌≡◌, ◌+◌, ◌≤◌, [], ◌∷◌, ◌++◌, OnOk};

use std::alloc::Global;
use std::marker::Model;
use td_layer::NoMem;
use td_model::JournalLine;

/// The lines of the entries since a core was opened, with their spare room. A call that finds no memory for more room
/// leaves the room that is there.
#[derive(Drop)]
pub(crate) struct Journal {
    lines: Vec<JournalLine>,
}

impl Model for Journal {
    ghost use Rattle.std.specs.Prelude.{vec_len, vec_capacity, ◌-◌};
    ghost use Rattle.td_layer.specs.Listed.{Listed};
    ghost use Rattle.td_model.specs.declared.report.JournalLine.{JournalLine};

    ghost Value = { Listed JournalLine };

    ghost view = { λ s. record { items = s.lines.items; spare = vec_capacity s.lines - vec_len s.lines } };
}

impl Journal {
    // No line. It takes no memory.
    pub(crate) fn new(alloc: Global) -> Journal
        ensures { result.items ≡ [] }
    {
        Journal {
            lines: Vec::new(alloc),
        }
    }

    // Makes the spare room at least `n` lines.
    pub(crate) fn make_room(&mut self, n: usize) -> Result<(), NoMem>
        ensures ok { OnOk result (n ≤ self.new.spare) }
        ensures items { self.new.items ≡ self.old.items }
        ensures kept { self.old.spare ≤ self.new.spare }
    {
        match self.lines.reserve(n) {
            Ok(()) => Ok(()),
            Err(_) => Err(NoMem),
        }
    }

    // Adds a line where there is room. It takes no memory.
    pub(crate) fn note(&mut self, line: JournalLine)
        requires { 1 ≤ self.old.spare }
        ensures items { self.new.items ≡ self.old.items ++ line ∷ [] }
        ensures spare { self.old.spare ≤ self.new.spare + 1 }
    {
        self.lines.push(line).unwrap();
    }

    // The lines.
    pub(crate) fn as_slice(&self) -> &[JournalLine]
        ensures { result.now ≡ self.now.items }
    {
        self.lines.as_slice()
    }
}
