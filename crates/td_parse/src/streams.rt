//! Streams.
ghost use Rattle.std.specs.Prelude.{◌≡◌, ◌++◌, []};
ghost use Rattle.td_grammar.specs.Grammar.{read, begun, only};
ghost use Rattle.td_grammar.specs.declared.kinds.TheConstants.{TRIGGER, WATERMARK, IGNORE, FILL_HISTORY};
ghost use Rattle.td_grammar.specs.Grammar.{starts as starts_with};
ghost use Rattle.td_grammar.specs.Gives.{Gives};
ghost use Rattle.td_parse.specs.Productions.{stream_option as prod_stream_option, a_trigger as prod_a_trigger, options as prod_options, stream as prod_stream};
ghost use Rattle.td_parse.specs.Productions.{is_new, with_option as option_added, stream_of};

use crate::drafts::{Options, StreamOption};
use std::alloc::Global;
use td_clauses::{query, starts_either};
use td_grammar::{Fault, Lexeme, duration, keyword, kinds, starts, zero_or_one};
use td_layer::Name;
use td_model::{Query, Stmt, StreamDef, Trigger};

// TRIGGER ( AT_ONCE | WINDOW_CLOSE | MAX_DELAY Dur )
#[tactic(auto, using(td_grammar::proofs::Forms::value_itself), unfolding(crate::specs::Productions::a_trigger))]
fn trigger(tokens: &[Lexeme]) -> Result<(Trigger, &[Lexeme]), Fault>
    ensures { Gives (λ x. (x.0, x.1.now)) result (read (tt {0}) prod_a_trigger tokens.now) }
{
    let rest = keyword(tokens, kinds::TRIGGER)?;
    if starts(rest, kinds::AT_ONCE) {
        let rest = keyword(rest, kinds::AT_ONCE)?;
        Ok((Trigger::AtOnce, rest))
    } else if starts(rest, kinds::WINDOW_CLOSE) {
        let rest = keyword(rest, kinds::WINDOW_CLOSE)?;
        Ok((Trigger::WindowClose, rest))
    } else {
        let rest = keyword(rest, kinds::MAX_DELAY)?;
        let (delay, rest) = duration(rest)?;
        Ok((Trigger::MaxDelay(delay), rest))
    }
}

// TRIGGER .. | WATERMARK Dur | IGNORE EXPIRED bit | FILL_HISTORY bit
#[tactic(auto, using(td_grammar::proofs::Forms::value_itself, crate::proofs::Starts::starts_a_trigger), unfolding(crate::specs::Productions::stream_option))]
fn stream_option(tokens: &[Lexeme]) -> Result<(StreamOption, &[Lexeme]), Fault>
    ensures { Gives (λ x. (x.0, x.1.now)) result (read (tt {0}) prod_stream_option tokens.now) }
{
    if starts(tokens, kinds::TRIGGER) {
        let (trigger, rest) = trigger(tokens)?;
        Ok((StreamOption::Trigger(trigger), rest))
    } else if starts(tokens, kinds::WATERMARK) {
        let rest = keyword(tokens, kinds::WATERMARK)?;
        let (watermark, rest) = duration(rest)?;
        Ok((StreamOption::Watermark(watermark), rest))
    } else if starts(tokens, kinds::IGNORE) {
        let rest = keyword(tokens, kinds::IGNORE)?;
        let rest = keyword(rest, kinds::EXPIRED)?;
        let (expired, rest) = zero_or_one(rest)?;
        Ok((StreamOption::Expired(expired), rest))
    } else {
        let rest = keyword(tokens, kinds::FILL_HISTORY)?;
        let (history, rest) = zero_or_one(rest)?;
        Ok((StreamOption::History(history), rest))
    }
}

// Whether an option is next.
#[tactic(auto, using(td_grammar::proofs::KindSets::starts_append))]
fn starts_option(tokens: &[Lexeme]) -> bool
    ensures { result ≡ starts_with ((only TRIGGER ++ only WATERMARK) ++ (only IGNORE ++ only FILL_HISTORY)) tokens.now }
{
    starts_either(tokens, kinds::TRIGGER, kinds::WATERMARK)
        || starts_either(tokens, kinds::IGNORE, kinds::FILL_HISTORY)
}

// Whether the next option is not given yet.
#[tactic(auto, using(std::proofs::lemmas::Bool::Decides::nat_tests))]
fn may_come(all: Options, tokens: &[Lexeme]) -> bool
    ensures { result ≡ begun (is_new all) tokens.now }
{
    match tokens {
        [] => false,
        [token, ..] => {
            if token.kind == kinds::TRIGGER {
                all.trigger.is_none()
            } else if token.kind == kinds::WATERMARK {
                all.watermark.is_none()
            } else if token.kind == kinds::IGNORE {
                all.expired.is_none()
            } else {
                all.history.is_none()
            }
        }
    }
}

// The options with one more.
fn with_option(all: Options, choice: StreamOption) -> Options
    ensures { result ≡ option_added all choice }
{
    match choice {
        StreamOption::Trigger(trigger) => Options {
            trigger: Some(trigger),
            watermark: all.watermark,
            expired: all.expired,
            history: all.history,
        },
        StreamOption::Watermark(watermark) => Options {
            trigger: all.trigger,
            watermark: Some(watermark),
            expired: all.expired,
            history: all.history,
        },
        StreamOption::Expired(expired) => Options {
            trigger: all.trigger,
            watermark: all.watermark,
            expired: Some(expired),
            history: all.history,
        },
        StreamOption::History(history) => Options {
            trigger: all.trigger,
            watermark: all.watermark,
            expired: all.expired,
            history: Some(history),
        },
    }
}

// { option }, each kind at most once
fn options(tokens: &[Lexeme]) -> Result<(Options, &[Lexeme]), Fault>
    ensures { Gives (λ x. (x.0, x.1.now)) result (read (tt {0}) prod_options tokens.now) }
{
    let mut all = Options {
        trigger: None,
        watermark: None,
        expired: None,
        history: None,
    };
    let mut rest = tokens;
    while starts_option(rest) {
        if !may_come(all, rest) {
            return Err(Fault::At(rest.len()));
        }
        let (item, after) = stream_option(rest)?;
        all = with_option(all, item);
        rest = after;
    }
    Ok((all, rest))
}

// The stream of these parts; an option that is not given has its usual value.
fn stream_of(name: Name, options: Options, target: Name, query: Query) -> StreamDef
    ensures { result ≡ stream_of name options target query }
{
    StreamDef {
        name,
        trigger: options.trigger.unwrap_or(Trigger::AtOnce),
        watermark: options.watermark.unwrap_or(0),
        ignore_expired: options.expired.unwrap_or(false),
        fill_history: options.history.unwrap_or(true),
        target,
        query,
    }
}

// STREAM name { option } INTO name AS query, behind CREATE
#[tactic(auto, using(td_grammar::proofs::Forms::value_itself), unfolding(crate::specs::Productions::stream))]
pub(crate) fn stream(alloc: Global, tokens: &[Lexeme]) -> Result<(Stmt, &[Lexeme]), Fault>
    ensures { Gives (λ x. (x.0, x.1.now)) result (read (tt {0}) prod_stream tokens.now) }
{
    let rest = keyword(tokens, kinds::STREAM)?;
    let (name, rest) = td_grammar::name(alloc, rest)?;
    let (options, rest) = options(rest)?;
    let rest = keyword(rest, kinds::INTO)?;
    let (target, rest) = td_grammar::name(alloc, rest)?;
    let rest = keyword(rest, kinds::AS)?;
    let (query, rest) = query(alloc, rest)?;
    Ok((
        Stmt::MakeStream(stream_of(name, options, target, query)),
        rest,
    ))
}
