//! The six kinds of step, each on one word of the turn's table, and the two loops that wait.
ghost use Rattle.std.specs.Prelude.{◌≡◌, ◌≢◌, ◌+◌, ◌^◌, ◌<◌, ◌≤◌, [], ◌∷◌, length, Some, None};
ghost use mathlib.Core.List.{IsPrefix};
ghost use Rattle.td_turn.specs.declared.rule.Stage.TheVariants.{Idle, Waits};
ghost use Rattle.td_turn.specs.declared.steps.TheConstants.{NO_TICKET};
ghost use Rattle.td_turn.specs.Passes.{GoesOn, longer};
ghost use Rattle.td_turn.specs.Views.{slot_at, at_stage, counted_view, kept_view, new_view, joined_view, told_view};
ghost use Rattle.td_turn.specs.Rule.{TakesFor};

use crate::rule::{Count, Cut, Draw, Law, Merge, PassOn, Tell, View, Watch};
use crate::turned::Turned;
use atomic_table::{Seat, Shared};
use std::hint::spin_loop;
use std::snapshot::Snapshot;
use std::sync::Wait;

/// The front: how many entries the history has.
const FRONT: usize = 0;

/// How many tickets were drawn.
const TICKETS: usize = 1;

/// The ticket that is served.
const SERVING: usize = 2;

/// The number that no ticket has: it follows that of the last one.
const NO_TICKET: u64 = u64::MAX;

/// How often a thread looks at the served ticket before it sleeps.
const LOOKS: u32 = 64;

pub(crate) type Words<V: Turned> = Shared<Option<V>, View<V::Base, V::Entry>, Snapshot<V>, Law>;

pub(crate) type TurnSeat<V: Turned> = Seat<Option<V>, View<V::Base, V::Entry>>;

// Draws the ticket `next` if it is the next one. Answers which one was.
fn draw_at<V: Turned>(words: &Words<V>, seat: &mut TurnSeat<V>, next: u64) -> u64
    requires table { (seat.old.table_id ≡ words.now.table_id) × (words.now.table_id.words ≡ 3) }
    requires idle { (seat.old.me.0.stage ≡ Idle) × (0 < seat.old.me.0.parts) }
    requires last { next ≢ NO_TICKET }
    ensures table { seat.new.table_id ≡ seat.old.table_id }
    ensures drawn { result ≡ next
        → (seat.new.me.0 ≡ at_stage (Waits next) seat.old.me.0) × (seat.new.me.1 ≡ seat.old.me.1) }
    ensures other { result ≢ next → seat.new.me ≡ seat.old.me }
{
    words.compare_exchange::<Draw>(seat, TICKETS, next, next + 1)
}

/// Draws the next ticket. Once all are drawn it waits for good.
pub(crate) fn draw<V: Turned, R: Wait>(rt: &R, words: &Words<V>, seat: &mut TurnSeat<V>) -> u64
    requires table { (seat.old.table_id ≡ words.now.table_id) × (words.now.table_id.words ≡ 3) }
    requires idle { (seat.old.me.0.stage ≡ Idle) × (0 < seat.old.me.0.parts) }
    ensures table { seat.new.table_id ≡ seat.old.table_id }
    ensures drawn { (seat.new.me.0 ≡ at_stage (Waits result) seat.old.me.0) × (seat.new.me.1 ≡ seat.old.me.1) }
{
    let mut next = words.peek(TICKETS);
    for _ in rt.forever() {
        if next == NO_TICKET {
            words.park(rt, TICKETS, u32::MAX);
        } else {
            let found = draw_at(words, seat, next);
            if found == next {
                return next;
            }
            next = found;
        }
    }
    unreachable!()
}

/// Waits until the ticket is served, and takes the slot.
pub(crate) fn wait_for<V: Turned, R: Wait>(
    rt: &R,
    words: &Words<V>,
    seat: &mut TurnSeat<V>,
    ticket: u64,
)
    requires table { (seat.old.table_id ≡ words.now.table_id) × (words.now.table_id.words ≡ 3) }
    requires waits { (seat.old.me.0.stage ≡ Waits ticket) × (0 < seat.old.me.0.parts) }
    requires base { seat.old.me.0.base ≡ Some (V.base words.now.key.value) }
    ensures table { seat.new.table_id ≡ seat.old.table_id }
    ensures taken { TakesFor V.base V.first V.list ticket seat.old.me seat.new.me }
{
    let mut looks = LOOKS;
    for _ in rt.forever() {
        let served = words.load::<Watch>(seat, SERVING);
        if served == ticket {
            return;
        }
        if looks > 0 {
            looks -= 1;
            spin_loop();
        } else {
            words.park(rt, SERVING, (served % (1 << 32)) as u32);
        }
    }
    unreachable!()
}

/// Takes the value out of the slot, as plain memory.
pub(crate) fn take_out<V: Turned>(words: &Words<V>, seat: &mut TurnSeat<V>) -> V
    requires table { seat.old.table_id ≡ words.now.table_id }
    requires slot { (x : V) × (seat.old.me.1 ≡ (0, Some x) ∷ []) }
    ensures table { seat.new.table_id ≡ seat.old.table_id }
    ensures value { seat.old.me.1 ≡ (0, Some result) ∷ [] }
    ensures hole { (seat.new.me.0 ≡ seat.old.me.0) × (seat.new.me.1 ≡ (0, None) ∷ []) }
{
    let slot = words.exchange(seat, 0, None);
    let Some(value) = slot else { unreachable!() };
    value
}

/// Puts the value back into the slot, as plain memory.
pub(crate) fn put_back<V: Turned>(words: &Words<V>, seat: &mut TurnSeat<V>, value: V)
    requires table { seat.old.table_id ≡ words.now.table_id }
    requires hole { seat.old.me.1 ≡ (0, None) ∷ [] }
    ensures table { seat.new.table_id ≡ seat.old.table_id }
    ensures slot { (seat.new.me.0 ≡ seat.old.me.0) × (seat.new.me.1 ≡ (0, Some value) ∷ []) }
{
    let hole = words.exchange(seat, 0, Some(value));
    let None = hole else { unreachable!() };
}

/// Counts the entries that the value in the slot has more than were seen. `like` is that value.
pub(crate) fn count<V: Turned>(
    words: &Words<V>,
    seat: &mut TurnSeat<V>,
    like: &Snapshot<V>,
    entries: u64,
)
    requires table { (seat.old.table_id ≡ words.now.table_id) × (words.now.table_id.words ≡ 3) }
    requires holder { (slot_at seat.old.me.0.stage ≡ 1) × (0 < seat.old.me.0.parts) }
    requires base { seat.old.me.0.base ≡ Some (V.base words.now.key.value) }
    requires slot { seat.old.me.1 ≡ (0, Some like.now.value) ∷ [] }
    requires list { GoesOn entries seat.old.me.0.seen (V.list like.now.value) }
    requires room { V.first (V.base words.now.key.value) + length (V.list like.now.value) < 2 ^ 64 }
    ensures table { seat.new.table_id ≡ seat.old.table_id }
    ensures counted { seat.new.me.0 ≡ counted_view
        (V.first (V.base words.now.key.value) + length seat.old.me.0.seen) entries (V.list like.now.value)
        seat.old.me.0 }
    ensures slot { seat.new.me.1 ≡ seat.old.me.1 }
{
    let _ = like;
    words.fetch_add::<Count>(seat, FRONT, entries);
}

/// Gives the slot back, with the value in it, and serves the next ticket. `like` is that value.
pub(crate) fn pass_on<V: Turned>(words: &Words<V>, seat: &mut TurnSeat<V>, like: &Snapshot<V>)
    requires table { (seat.old.table_id ≡ words.now.table_id) × (words.now.table_id.words ≡ 3) }
    requires holder { (slot_at seat.old.me.0.stage ≡ 1) × (0 < seat.old.me.0.parts) }
    requires slot { seat.old.me.1 ≡ (0, Some like.now.value) ∷ [] }
    requires base { V.base like.now.value ≡ V.base words.now.key.value }
    requires list { V.list like.now.value ≡ seat.old.me.0.seen }
    ensures table { seat.new.table_id ≡ seat.old.table_id }
    ensures passed { (seat.new.me.0 ≡ at_stage Idle seat.old.me.0) × (seat.new.me.1 ≡ []) }
{
    let _ = like;
    let served = words.fetch_add::<PassOn>(seat, SERVING, 1);
    // Who waits drew its ticket before it looked at the one that is served, so it is seen here or doesn't sleep.
    if words.peek(TICKETS) != served.wrapping_add(1) {
        words.wake_all(SERVING);
    }
}

/// Splits one part off, for a new seat that has seen the same.
pub(crate) fn split<V: Turned>(words: &Words<V>, seat: &mut TurnSeat<V>) -> TurnSeat<V>
    requires table { (seat.old.table_id ≡ words.now.table_id) × (words.now.table_id.words ≡ 3) }
    requires idle { (seat.old.me.0.stage ≡ Idle) × (2 ≤ seat.old.me.0.parts) }
    ensures table { (seat.new.table_id ≡ seat.old.table_id) × (result.table_id ≡ seat.old.table_id) }
    ensures old { (seat.new.me.0 ≡ kept_view seat.old.me.0) × (seat.new.me.1 ≡ seat.old.me.1) }
    ensures new { (result.me.0 ≡ new_view seat.old.me.0) × (result.me.1 ≡ []) }
{
    words.split_seat::<Cut>(seat)
}

/// Joins another seat in, and is told that of the two lists that were seen the shorter begins the longer.
pub(crate) fn merge<V: Turned>(words: &Words<V>, seat: &mut TurnSeat<V>, other: TurnSeat<V>)
    requires table { (seat.old.table_id ≡ words.now.table_id) × (words.now.table_id.words ≡ 3) }
    requires other { other.table_id ≡ words.now.table_id }
    requires idle { (seat.old.me.0.stage ≡ Idle) × (other.me.0.stage ≡ Idle) × (other.me.1 ≡ []) }
    requires parts { 0 < seat.old.me.0.parts }
    ensures table { seat.new.table_id ≡ seat.old.table_id }
    ensures joined { seat.new.me.0 ≡ told_view (joined_view seat.old.me.0 other.me.0) }
    ensures slots { seat.new.me.1 ≡ seat.old.me.1 }
    ensures this_begins { IsPrefix seat.old.me.0.seen (longer seat.old.me.0.seen other.me.0.seen) }
    ensures other_begins { IsPrefix other.me.0.seen (longer seat.old.me.0.seen other.me.0.seen) }
{
    words.join_seat::<Merge>(seat, other);
    words.load::<Tell>(seat, FRONT);
}
