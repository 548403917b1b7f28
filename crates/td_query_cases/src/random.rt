//! Random stores, and random queries over them that are answered twice.
use crate::asks::pair_of;
use crate::lines::push_asked;
use crate::plain::push_plain;
use crate::plans::{plan_of, words_of};
use crate::player::{Player, Told};
use crate::stored::{Said, Stored};
use std::alloc::Global;
use std::sync::ledger::Ledger;
use td_cases::{CaseFault, Out};
use td_layer::{Cell, Key, NoMem, Seq, Steps};
use td_limits::LAST_TIMESTAMP;
use td_model::{Column, Kind};

/// The most tables of a store.
const MOST_TABLES: u32 = 6;

/// How many queries are asked over a store.
const QUERIES: u32 = 4;

// A linear congruential generator.
#[derive(Drop)]
struct Draws {
    state: u64,
}

impl Draws {
    // A number below another, or 0.
    fn below(&mut self, n: u32) -> u32 {
        self.state = self
            .state
            .wrapping_mul(6364136223846793005)
            .wrapping_add(1442695040888963407);
        let drawn = u32::try_from(self.state >> 33).unwrap_or(0);
        if n == 0 { 0 } else { drawn % n }
    }
}

// ---- stores

fn text_tag(alloc: Global, draws: &mut Draws) -> Result<Cell, NoMem> {
    let text = match draws.below(5) {
        0 => return Ok(Cell::Null),
        1 => "x",
        2 => "xy",
        3 => "w",
        _ => "",
    };
    let text = Seq::of_bytes(alloc, text.as_bytes())?;
    Ok(Cell::Str(text))
}

fn number_tag(draws: &mut Draws) -> Cell {
    match draws.below(4) {
        0 => Cell::Null,
        n => Cell::Num(i128::from(n) - 2),
    }
}

// Names whose order isn't that of the numbers.
fn name_of(number: u32) -> &'static str {
    match number {
        0 => "m",
        1 => "b",
        2 => "z",
        3 => "ba",
        4 => "a",
        _ => "c",
    }
}

fn told(alloc: Global, draws: &mut Draws, number: u32) -> Result<Told, NoMem> {
    let mut tags = Seq::new(alloc);
    let text = text_tag(alloc, draws)?;
    tags.add(text)?;
    tags.add(number_tag(draws))?;
    let name = Seq::of_bytes(alloc, name_of(number).as_bytes())?;
    Ok(Told { number, name, tags })
}

fn add_tag(alloc: Global, player: &mut Player, name: &str, kind: Kind) -> Result<(), NoMem> {
    let name = Seq::of_bytes(alloc, name.as_bytes())?;
    player.tags.add(Column { name, kind })?;
    Ok(())
}

// Columns, tags and some of the tables.
fn set_tables(alloc: Global, draws: &mut Draws, player: &mut Player) -> Result<(), CaseFault> {
    player.set_columns(alloc, "ts v b?")?;
    add_tag(alloc, player, "g", Kind::Text(64))?;
    add_tag(alloc, player, "n", Kind::I64)?;
    for number in 0..MOST_TABLES {
        if draws.below(5) > 0 {
            let told = told(alloc, draws, number)?;
            player.tables.add(told)?;
        }
    }
    Ok(())
}

fn number_said(draws: &mut Draws) -> Said {
    match draws.below(24) {
        0 => Said::Unsigned(u64::MAX),
        1 => Said::Signed(i64::MIN),
        2..=6 => Said::Null,
        n => Said::Signed(i64::from(n % 5) - 2),
    }
}

fn truth_said(draws: &mut Draws) -> Said {
    match draws.below(5) {
        0 => Said::Null,
        n => Said::Unsigned(u64::from(n % 2)),
    }
}

// Rows in any order, of tables that a query reads and of others. No two have one key.
fn put_rows(draws: &mut Draws, stored: &mut Stored) -> Result<(), NoMem> {
    let count = draws.below(40);
    let span = draws.below(80);
    for _ in 0..count {
        let table = draws.below(MOST_TABLES);
        let ts = u64::from(draws.below(span));
        let values = [number_said(draws), truth_said(draws)];
        let key = Key { table, ts };
        if !stored.has(key) {
            stored.put(key, &values)?;
        }
    }
    Ok(())
}

// ---- queries

fn draw_parts(draws: &mut Draws) -> &'static str {
    match draws.below(8) {
        0 => "g",
        1 => "n",
        2 => "tbname",
        3 => "g,n",
        4 => "n,g",
        5 => "n,tbname",
        _ => "-",
    }
}

fn draw_aggregates(draws: &mut Draws) -> &'static str {
    match draws.below(4) {
        0 => "count(*),count:v,sum:v,avg:v",
        1 => "min:v,max:v,spread:v,first:v,last:v",
        2 => "count:b,first:b,last:b,count(*)",
        _ => "first:ts,last:ts,spread:ts,avg:v,first:v",
    }
}

fn draw_order(draws: &mut Draws) -> &'static str {
    match draws.below(4) {
        0 => " asc ",
        1 => " desc ",
        _ => " - ",
    }
}

fn push_number(out: &mut Out, sign: &str, n: u64) {
    out.push(sign.as_bytes());
    out.number(i128::from(n));
}

fn push_interval(out: &mut Out, draws: &mut Draws) {
    let slide = u64::from(draws.below(9)) + 1;
    let len = slide + u64::from(draws.below(20));
    push_number(out, "interval:", len);
    push_number(out, ":", u64::from(draws.below(1000)) % len);
    push_number(out, ":", slide);
}

fn push_window_def(out: &mut Out, draws: &mut Draws) {
    match draws.below(6) {
        0 => out.push(b"state:v"),
        1 => out.push(b"state:b"),
        2 => push_number(out, "session:", u64::from(draws.below(6))),
        _ => push_interval(out, draws),
    }
}

fn push_items(out: &mut Out, draws: &mut Draws, parts: &str, edges: &str) {
    if parts != "-" {
        out.push(parts.as_bytes());
        out.push(b",");
    }
    out.push(edges.as_bytes());
    out.push(draw_aggregates(draws).as_bytes());
    out.push(b" ");
    out.push(parts.as_bytes());
    out.push(b" ");
}

fn push_range(out: &mut Out, draws: &mut Draws) {
    if draws.below(2) == 0 {
        push_number(out, "0..", LAST_TIMESTAMP);
    } else {
        push_number(out, "", u64::from(draws.below(30)));
        push_number(out, "..", u64::from(draws.below(90)));
    }
}

fn push_shown(out: &mut Out, draws: &mut Draws) {
    if draws.below(2) == 0 {
        out.push(b" 0+1000");
    } else {
        push_number(out, " ", u64::from(draws.below(4)));
        push_number(out, "+", u64::from(draws.below(12)));
    }
}

// The words of a query, as a line has them.
fn query_text(alloc: Global, draws: &mut Draws) -> Result<Seq<u8>, NoMem> {
    let mut out = Out::new(alloc);
    out.push(b"s ");
    let parts = draw_parts(draws);
    if draws.below(4) == 0 {
        push_items(&mut out, draws, parts, "");
        out.push(b"- - ");
    } else {
        push_items(&mut out, draws, parts, "_wstart,_wend,");
        push_window_def(&mut out, draws);
        out.push(draw_order(draws).as_bytes());
    }
    push_range(&mut out, draws);
    push_shown(&mut out, draws);
    let text = out.text()?;
    Ok(text)
}

// ---- comparing

fn plain_text(
    alloc: Global,
    player: &Player,
    stored: &Stored,
    text: &str,
) -> Result<Seq<u8>, CaseFault> {
    let words = words_of(text);
    let shown = pair_of(words.shown, "+")?;
    let plan = plan_of(alloc, player, &words)?;
    let mut out = Out::new(alloc);
    let pushed = push_plain(&mut out, alloc, &plan, stored.rows(), shown);
    drop(plan);
    pushed?;
    let text = out.text()?;
    Ok(text)
}

fn asked_text<L: Ledger>(
    alloc: Global,
    player: &Player,
    stored: &mut Stored,
    text: &str,
    steps: &mut Steps<L>,
) -> Result<Seq<u8>, CaseFault> {
    let mut out = Out::new(alloc);
    push_asked(&mut out, alloc, player, stored, text, steps)?;
    let text = out.text()?;
    Ok(text)
}

// Adds a query with what was answered and what the regrouping gives.
fn push_difference(out: &mut Out, text: &str, answered: &[u8], plain: &[u8]) {
    out.push(b"ask ");
    out.push(text.as_bytes());
    out.push(b"\nanswered\n");
    out.push(answered);
    out.push(b"plain\n");
    out.push(plain);
}

// Whether a query has the answer that the regrouping gives. If not, the difference is added.
fn is_same<L: Ledger>(
    out: &mut Out,
    alloc: Global,
    player: &Player,
    stored: &mut Stored,
    query: &[u8],
    steps: &mut Steps<L>,
) -> Result<bool, CaseFault> {
    let Ok(text) = str::from_utf8(query) else {
        return Err(CaseFault::Unread);
    };
    let answered = asked_text(alloc, player, stored, text, steps)?;
    let plain = plain_text(alloc, player, stored, text)?;
    let same = answered.as_slice() == plain.as_slice();
    if !same {
        push_difference(out, text, answered.as_slice(), plain.as_slice());
    }
    Ok(same)
}

fn are_same<L: Ledger>(
    out: &mut Out,
    alloc: Global,
    draws: &mut Draws,
    player: &Player,
    stored: &mut Stored,
    steps: &mut Steps<L>,
) -> Result<bool, CaseFault> {
    for _ in 0..QUERIES {
        let query = query_text(alloc, draws)?;
        if !is_same(out, alloc, player, stored, query.as_slice(), steps)? {
            return Ok(false);
        }
    }
    Ok(true)
}

// Makes a store and asks some queries over it.
fn is_store_same<L: Ledger>(
    out: &mut Out,
    alloc: Global,
    draws: &mut Draws,
    steps: &mut Steps<L>,
) -> Result<bool, CaseFault> {
    let mut player = Player::new(alloc);
    set_tables(alloc, draws, &mut player)?;
    let mut stored = Stored::new(alloc);
    put_rows(draws, &mut stored)?;
    let same = are_same(out, alloc, draws, &player, &mut stored, steps);
    drop(stored);
    drop(player);
    same
}

/// Makes so many stores by a seed, and asks queries over each. Adds how many stores there were if all answers are those
/// of the regrouping, and else the first query with two answers, the seed, and the number of the store from 0.
pub(crate) fn push_random<L: Ledger>(
    out: &mut Out,
    alloc: Global,
    text: &str,
    steps: &mut Steps<L>,
) -> Result<(), CaseFault> {
    let (seed, count) = pair_of(text, " ")?;
    let mut draws = Draws { state: seed };
    for store in 0..count {
        if !is_store_same(out, alloc, &mut draws, steps)? {
            push_number(out, "differs seed ", seed);
            push_number(out, " store ", store);
            out.push(b"\n");
            return Ok(());
        }
    }
    push_number(out, "same ", count);
    out.push(b"\n");
    Ok(())
}
