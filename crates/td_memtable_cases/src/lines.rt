//! Lines that are played on a memtable.
ghost use Rattle.std.specs.Prelude.{◌≡◌, ◌<◌};

use crate::player::Player;
use crate::scans::{push_cuts, push_scan};
use crate::shared_tree::push_shared;
use std::alloc::Global;
use std::sync::ledger::{Blank, Ledger};
use td_cases::{CaseFault, Out};
use td_layer::{Seq, Steps};

/// The numbers of a line; one that it doesn't have is 0.
#[derive(Clone, Copy)]
pub(crate) struct Numbers {
    pub(crate) table: u32,
    pub(crate) second: u64,
    pub(crate) third: u64,
}

fn numbers_of(text: &str) -> Numbers {
    let mut words = text.split(' ');
    let table = words.next().unwrap_or("").parse::<u32>().unwrap_or(0);
    let second = words.next().unwrap_or("").parse::<u64>().unwrap_or(0);
    let third = words.next().unwrap_or("").parse::<u64>().unwrap_or(0);
    Numbers {
        table,
        second,
        third,
    }
}

/// Plays lines, one after another, on a memtable that is empty at first: what they answer.
pub(crate) fn play_all<L: Ledger>(
    alloc: Global,
    lines: &[String],
    blank: Blank,
) -> Result<Seq<u8>, CaseFault>
    requires name { blank.name ≡ L.name }
    requires parts { blank.parts ≡ L.parts }
    requires some { 0 < blank.parts }
{
    let mut out = Out::new(alloc);
    let mut steps: Steps<L> = Steps::new(blank);
    let played = play_lines(&mut out, alloc, lines, &mut steps);
    let text = out.text();
    played?;
    Ok(text?)
}

fn play_lines<L: Ledger>(
    out: &mut Out,
    alloc: Global,
    lines: &[String],
    steps: &mut Steps<L>,
) -> Result<(), CaseFault> {
    let mut player = Player::new(alloc);
    let played = play_each(out, alloc, &mut player, lines, steps);
    drop(player);
    played
}

fn play_each<L: Ledger>(
    out: &mut Out,
    alloc: Global,
    player: &mut Player,
    lines: &[String],
    steps: &mut Steps<L>,
) -> Result<(), CaseFault> {
    for line in lines {
        play(out, alloc, player, line.as_str(), steps)?;
    }
    Ok(())
}

// Plays a line, and adds what it answers: `?` where it has another form.
fn play<L: Ledger>(
    out: &mut Out,
    alloc: Global,
    player: &mut Player,
    line: &str,
    steps: &mut Steps<L>,
) -> Result<(), CaseFault> {
    let (name, text) = line.split_once(' ').unwrap_or((line, ""));
    let numbers = numbers_of(text);
    match name {
        "put" => player.put(numbers),
        "cut" => player.cut(numbers),
        "share" => player.share(),
        "scan" => push_scan(out, player.active(), numbers, steps),
        "kept" => push_scan(out, player.kept(), numbers, steps),
        "cuts" => push_cuts(out, player.active(), numbers.table),
        "tree" => push_shared(out, alloc, numbers.table),
        _ => {
            push_count(out, player, name);
            Ok(())
        }
    }
}

fn push_count(out: &mut Out, player: &Player, name: &str) {
    if name == "held" {
        out.push(b"held ");
        out.number(i128::from(player.active().held()));
        out.push(b"\n");
    } else {
        out.push(b"?\n");
    }
}
