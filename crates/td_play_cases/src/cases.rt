//! Cases, and the notation of their scripts.
use crate::settings::{Settings, number};
use std::alloc::Global;
use td_cases::{CaseFault, Out, unescaped};

/// A case: the head behind its `====`, what that says, and the lines of the script, each with a newline.
#[derive(Drop)]
pub(crate) struct Case {
    pub(crate) head: String,
    pub(crate) settings: Settings,
    script: Vec<u8>,
}

impl Case {
    pub(crate) fn new(alloc: Global, head: &str) -> Result<Case, CaseFault> {
        Ok(Case {
            head: String::from_str(alloc, head)?,
            settings: Settings::of_head(alloc, head)?,
            script: Vec::new(alloc),
        })
    }

    /// Adds a line, which may have escapes. A line `@ FROM TO FRONT|TEXT|END` stands for the front, the text once for
    /// each number from FROM to TO, and the end; in the text `%` is the number, and `~` that which is as far from TO
    /// as it is from FROM.
    pub(crate) fn add_line(&mut self, alloc: Global, line: &str) -> Result<(), CaseFault> {
        match line.strip_prefix("@ ") {
            None => {
                let bytes = unescaped(alloc, line)?;
                self.script.extend_from_slice(bytes.as_slice())?;
            }
            Some(notation) => {
                let mut out = Out::new(alloc);
                push_repeated(&mut out, alloc, notation)?;
                self.script.extend_from_slice(out.text()?.as_slice())?;
            }
        }
        self.script.push(b'\n')?;
        Ok(())
    }

    /// The bytes of the script.
    pub(crate) fn bytes(&self) -> &[u8] {
        let bytes = self.script.as_slice();
        if self.settings.is_unended {
            bytes.strip_suffix(b"\n").unwrap_or(bytes)
        } else {
            bytes
        }
    }
}

// Adds what `FROM TO FRONT|TEXT|END` stands for.
fn push_repeated(out: &mut Out, alloc: Global, notation: &str) -> Result<(), CaseFault> {
    let mut words = notation.splitn(3, ' ');
    let from = number(words.next().unwrap_or(""))?;
    let to = number(words.next().unwrap_or(""))?;
    let mut parts = words.next().unwrap_or("").split('|');
    let front = unescaped(alloc, parts.next().unwrap_or(""))?;
    let text = unescaped(alloc, parts.next().unwrap_or(""))?;
    let end = unescaped(alloc, parts.next().unwrap_or(""))?;
    out.push(front.as_slice());
    for n in from..to.saturating_add(1) {
        push_numbered(
            out,
            text.as_slice(),
            n,
            from.saturating_add(to).saturating_sub(n),
        );
    }
    out.push(end.as_slice());
    Ok(())
}

fn push_numbered(out: &mut Out, text: &[u8], n: u64, turned: u64) {
    for byte in text {
        match *byte {
            b'%' => out.number(i128::from(n)),
            b'~' => out.number(i128::from(turned)),
            other => out.push(&[other]),
        }
    }
}
