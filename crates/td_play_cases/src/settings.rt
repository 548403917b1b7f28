//! The settings of a case.
ghost use Rattle.std.specs.Prelude.{◌<◌, IfOk};

use std::alloc::Global;
use td_cases::CaseFault;
use td_layer::Seq;

/// How the devices of a case are, and what is asked of them.
#[derive(Drop)]
pub(crate) struct Settings {
    /// `most_in=N`: the bytes that the source gives a call.
    pub(crate) most_in: usize,
    /// `fail_in=N`: the call of the source that fails, from 1, or 0 for none.
    pub(crate) fail_in: u64,
    /// `most_out=N`: the bytes that the sink takes a call.
    pub(crate) most_out: usize,
    /// `fail_out=N`: the call of the sink that fails, from 1, or 0 for none.
    pub(crate) fail_out: u64,
    /// `room=N`: the bytes that the sink has room for.
    pub(crate) room: usize,
    /// `clock=N,N,..`: the readings of the clock, the last of which comes again and again.
    pub(crate) clock: Vec<u64>,
    /// `fail_place=N`: the call of the place that fails, from 1, or 0 for none.
    pub(crate) fail_place: u64,
    /// `fail_store=N,N,..`: the calls of the store that fail, from 1.
    pub(crate) fail_store: Vec<u64>,
    /// `head=HEX`: the bytes of the head, which isn't there else.
    pub(crate) head: Option<Seq<u8>>,
    /// `log=HEX`: the bytes of the first log, which isn't there else.
    pub(crate) log: Option<Seq<u8>>,
    /// `again`: the script is played on the store that the case before left.
    pub(crate) is_again: bool,
    /// `words=|WORD|WORD..`: the words with which the program is called, each behind a bar; without it `play` is asked.
    pub(crate) words: Option<Vec<String>>,
    /// `unended`: the script's last line has no newline at its end.
    pub(crate) is_unended: bool,
    /// `statuses`: no script is played, and each status is listed.
    pub(crate) lists_statuses: bool,
}

impl Settings {
    /// The settings of a case that says nothing of them.
    fn plain(alloc: Global) -> Result<Settings, CaseFault> {
        Ok(Settings {
            most_in: 7,
            fail_in: 0,
            most_out: 5,
            fail_out: 0,
            room: 131_072,
            clock: vec![in alloc; 2_000_000_000_000]?,
            fail_place: 0,
            fail_store: Vec::new(alloc),
            head: None,
            log: None,
            is_again: false,
            words: None,
            is_unended: false,
            lists_statuses: false,
        })
    }

    /// The settings of the head of a case: behind its name.
    pub(crate) fn of_head(alloc: Global, head: &str) -> Result<Settings, CaseFault> {
        let mut settings = Settings::plain(alloc)?;
        for word in head.split(' ').skip(1) {
            settings.set(alloc, word)?;
        }
        Ok(settings)
    }

    fn set(&mut self, alloc: Global, word: &str) -> Result<(), CaseFault> {
        let (key, value) = word.split_once('=').unwrap_or((word, ""));
        match key {
            "most_in" => self.most_in = size(value)?,
            "fail_in" => self.fail_in = number(value)?,
            "most_out" => self.most_out = size(value)?,
            "fail_out" => self.fail_out = number(value)?,
            "room" => self.room = size(value)?,
            "clock" => self.clock = numbers(alloc, value)?,
            "fail_place" => self.fail_place = number(value)?,
            "fail_store" => self.fail_store = numbers(alloc, value)?,
            "head" => self.head = Some(hexadecimal(alloc, value)?),
            "log" => self.log = Some(hexadecimal(alloc, value)?),
            "again" => self.is_again = true,
            "words" => self.words = Some(words(alloc, value)?),
            "unended" => self.is_unended = true,
            "statuses" => self.lists_statuses = true,
            _ => return Err(CaseFault::Unread),
        }
        Ok(())
    }
}

/// A number of a case.
pub(crate) fn number(text: &str) -> Result<u64, CaseFault> {
    text.parse::<u64>().map_err(|_| CaseFault::Unread)
}

fn size(text: &str) -> Result<usize, CaseFault> {
    text.parse::<usize>().map_err(|_| CaseFault::Unread)
}

fn numbers(alloc: Global, text: &str) -> Result<Vec<u64>, CaseFault> {
    let mut all = Vec::new(alloc);
    for part in text.split(',') {
        all.push(number(part)?)?;
    }
    Ok(all)
}

fn words(alloc: Global, text: &str) -> Result<Vec<String>, CaseFault> {
    let mut words = Vec::new(alloc);
    for word in text.split('|').skip(1) {
        words.push(String::from_str(alloc, word)?)?;
    }
    Ok(words)
}

// The bytes of hexadecimal digits, two for each.
fn hexadecimal(alloc: Global, text: &str) -> Result<Seq<u8>, CaseFault> {
    let mut bytes = Seq::new(alloc);
    for pair in text.as_bytes().chunks_exact(2) {
        bytes.add(digit(pair[0])? * 16 + digit(pair[1])?)?;
    }
    Ok(bytes)
}

fn digit(byte: u8) -> Result<u8, CaseFault>
    ensures { IfOk result (λ n. n < 16) }
{
    match byte {
        b'0'..=b'9' => Ok(byte - b'0'),
        b'a'..=b'f' => Ok(byte - b'a' + 10),
        _ => Err(CaseFault::Unread),
    }
}
