//! The statement lines, numbered as they come.
ghost use Rattle.std.specs.Prelude.{◌≡◌, ◌+◌, ◌^◌, ◌<◌, [], OnOk, OnErr, EachIndex, slice_index};
ghost use Rattle.td_script.specs.Reading.{shown, step, AreNone, HasCount};

use crate::forms::Kind;
use crate::lines::Line;
use std::alloc::Global;
use td_layer::{NoMem, Seq};

/// The statement lines so far, the phase that the next one stands in, and how many there are of each session.
#[derive(Drop)]
pub struct Numbering {
    phase: u64,
    counts: [u32; 64],
    lines: Seq<Line>,
}

impl Numbering {
    /// Before the first line.
    pub fn new(alloc: Global) -> Numbering
        ensures phase { result.phase ≡ 1 }
        ensures counts { AreNone result.counts }
        ensures lines { result.lines ≡ [] }
    {
        Numbering {
            phase: 1,
            counts: [0; 64],
            lines: Seq::new(alloc),
        }
    }

    /// Adds a line of this kind. Where there is no memory all stays as it was.
    pub fn add(&mut self, alloc: Global, kind: Kind<'_>) -> Result<(), NoMem>
        requires phase { self.old.phase < 2 ^ 32 }
        requires counts { EachIndex self.old.counts (λ i. slice_index self.old.counts i + 1 < 2 ^ 32) }
        requires session { HasCount (shown kind) }
        ensures ok { OnOk result (self.new ≡ step self.old (shown kind.entry)) }
        ensures err { OnErr result (self.new ≡ self.old) }
    {
        match kind {
            Kind::Empty | Kind::Comment => {}
            Kind::Phase => self.phase += 1,
            Kind::Statement(session, text) => {
                let text = Seq::of_bytes(alloc, text)?;
                let at = session as usize - 1;
                let ordinal = self.counts[at] + 1;
                let line = Line {
                    phase: self.phase as u32,
                    session,
                    ordinal,
                    text,
                };
                if self.lines.push(line).is_err() {
                    return Err(NoMem);
                }
                self.counts[at] = ordinal;
            }
        }
        Ok(())
    }

    /// The statement lines.
    pub fn into_lines(self) -> Seq<Line>
        ensures { result ≡ self.lines }
    {
        self.lines
    }
}
