//! The turn, its passes, and the value while it is held.
ghost use Rattle.std.specs.Prelude.{◌≡◌, ◌+◌, ◌-◌, ◌^◌, ◌<◌, ◌≤◌, [], ◌++◌, length, ℕ, ◌∷◌, Some, None, IfOk, IfErr};
ghost use Rattle.std.specs.Borrow.{Lends, sem};
ghost use Rattle.td_turn.specs.contracts.turn.Held.{the_row};
ghost use mathlib.Core.List.{IsPrefix};
ghost use Rattle.td_turn.specs.Passes.{IsPassOf, IsHeldOf, GoesOn, versions_after, times, longer};

use crate::rule::{Law, View};
use crate::steps::{count, draw, merge, pass_on, put_back, split, take_out, wait_for};
use crate::turned::Turned;
use atomic_table::{Refused, Seat, Table};
use std::alloc::{AllocFailed, Global};
use std::marker::Model;
use std::snapshot::Snapshot;
use std::sync::Wait;
use td_layer::NoMem;
use td_limits::PASS_PARTS;

/// Who may have the value, one after another. Contracts see its name, which no other turn has, and the base of its
/// value.
///
/// A turn that is dropped drops its value.
#[derive(Drop)]
pub struct Turn<V: Turned> {
    table: Table<Option<V>, View<V::Base, V::Entry>, Snapshot<V>, Law, Global>,
}

impl<V: Turned> Model for Turn<V> {
    ghost use Rattle.std.specs.Prelude.{◌≡◌};
    ghost use Rattle.td_turn.specs.Passes.{TurnShown, coded_turn};

    ghost Value = { TurnShown V.Base };

    ghost coded = { coded_turn V.Base.code };

    ghost view = { λ t. record { name = t.table.shared.table_id; base = V.base t.table.shared.key.value } };

    ghost invariant = { λ t. (t.table.shared.table_id.words ≡ 3) × (t.table.shared.table_id.slots ≡ 1) };
}

/// The right to take turns. Contracts see the entries that its holder has seen, the versions that it notes, and how
/// many of all parts it has. It has no bytes.
///
/// Without a pass that was dropped the turn can't be closed.
#[derive(Drop)]
pub struct Pass<V: Turned> {
    seat: Seat<Option<V>, View<V::Base, V::Entry>>,
}

impl<V: Turned> Model for Pass<V> {
    ghost use Rattle.std.specs.Prelude.{◌≡◌, ◌<◌, []};
    ghost use Rattle.td_turn.specs.Passes.{PassShown, coded_pass};
    ghost use Rattle.td_turn.specs.declared.rule.Stage.TheVariants.{Idle};
    ghost use Rattle.td_turn.specs.Views.{pass_shown};

    ghost Value = { PassShown V.Base V.Entry };

    ghost coded = { coded_pass V.Base.code V.Entry.code };

    ghost view = { λ p. pass_shown p.seat.table_id p.seat.me.0 };

    ghost invariant = { λ p. (p.seat.me.1 ≡ []) × (p.seat.me.0.stage ≡ Idle) × (0 < p.seat.me.0.parts) };
}

/// The value while it is held, with the pass that it was taken with. Nobody else takes a turn until [`Turn::give`]
/// gives it back, so it can't be dropped.
pub struct Held<V: Turned> {
    seat: Seat<Option<V>, View<V::Base, V::Entry>>,
    value: V,
}

impl<V: Turned> Model for Held<V> {
    ghost use Rattle.std.specs.Prelude.{◌≡◌, ◌<◌, [], ◌∷◌, None};
    ghost use Rattle.td_turn.specs.Passes.{HeldShown, coded_held};
    ghost use Rattle.td_turn.specs.Views.{slot_at, held_shown};

    ghost Value = { HeldShown V V.Base V.Entry };

    ghost coded = { coded_held V.code V.Base.code V.Entry.code };

    ghost view = { λ h. held_shown h.seat.table_id h.seat.me.0 h.value };

    ghost invariant = { λ h. (h.seat.me.1 ≡ (0, None) ∷ [])
        × (slot_at h.seat.me.0.stage ≡ 1) × (0 < h.seat.me.0.parts) };
}

impl<V: Turned> Turn<V> {
    /// The turn of a value with an empty list, and the pass that has all parts. Where there is no memory the value
    /// comes back.
    pub fn new(alloc: Global, value: V) -> Result<(Turn<V>, Pass<V>), (V, NoMem)>
        requires empty { V.list value ≡ [] }
        ensures turn { IfOk result (λ t. (t.0.base ≡ V.base value) × IsPassOf t.0 t.1) }
        ensures pass { IfOk result (λ t. (t.1.seen ≡ []) × (t.1.versions ≡ []) × (t.1.parts ≡ PASS_PARTS)) }
        ensures err { IfErr result (λ e. e.0 ≡ value) }
    {
        let about = Snapshot::of(&value);
        let slots = match one(alloc, value) {
            Ok(slots) => slots,
            Err(value) => return Err((value, NoMem)),
        };
        match Table::new(alloc, &[0, 0, 0], slots, &about) {
            Ok((table, seat)) => Ok((Turn { table }, Pass { seat })),
            Err(Refused { slots }) => Err((only(slots), NoMem)),
        }
    }

    /// Takes the value, once all who came before have given it back. Its list begins with what the pass has seen.
    ///
    /// It waits for the others, in the order in which they came. Once 2^64-1 turns were taken it waits for good.
    pub fn take<R: Wait>(&self, rt: &R, pass: Pass<V>) -> Held<V>
        requires turn { IsPassOf self.now pass }
        ensures turn { IsHeldOf self.now result }
        ensures base { V.base result.value ≡ self.now.base }
        ensures list { (V.list result.value ≡ result.taken) × IsPrefix pass.seen result.taken }
        ensures kept { (result.versions ≡ pass.versions) × (result.parts ≡ pass.parts) }
    {
        let Pass { mut seat } = pass;
        let words = &self.table.shared;
        let ticket = draw(rt, words, &mut seat);
        wait_for(rt, words, &mut seat, ticket);
        let value = take_out(words, &mut seat);
        Held { seat, value }
    }

    /// Gives the value back, with `entries` further entries at the end of its list. The pass has then seen the whole
    /// list, and notes the versions of these entries. It waits for nobody.
    pub fn give(&self, held: Held<V>, entries: u64) -> Pass<V>
        requires turn { IsHeldOf self.now held }
        requires base { V.base held.value ≡ self.now.base }
        requires list { GoesOn entries held.taken (V.list held.value) }
        requires room { V.first self.now.base + length (V.list held.value) < 2 ^ 64 }
        ensures turn { IsPassOf self.now result }
        ensures seen { result.seen ≡ V.list held.value }
        ensures versions { result.versions ≡ held.versions
            ++ versions_after (V.first self.now.base + length held.taken) entries }
        ensures parts { result.parts ≡ held.parts }
    {
        let Held { mut seat, value } = held;
        let words = &self.table.shared;
        let like = Snapshot::of(&value);
        put_back(words, &mut seat, value);
        count(words, &mut seat, &like, entries);
        pass_on(words, &mut seat, &like);
        Pass { seat }
    }

    /// Splits one part of a pass off, as a second pass that has seen the same and notes no version.
    pub fn split(&self, pass: Pass<V>) -> (Pass<V>, Pass<V>)
        requires turn { IsPassOf self.now pass }
        requires parts { 2 ≤ pass.parts }
        ensures kept { result.0 ≡ record pass { parts = pass.parts - 1 } }
        ensures new { result.1 ≡ record pass { versions = []; parts = 1 } }
    {
        let Pass { mut seat } = pass;
        let new = split(&self.table.shared, &mut seat);
        (Pass { seat }, Pass { seat: new })
    }

    /// Joins two passes into one with the parts of both. It has seen what either has seen, of which the shorter begins
    /// the longer, and notes the versions of both.
    pub fn join(&self, a: Pass<V>, b: Pass<V>) -> Pass<V>
        requires turn { IsPassOf self.now a × IsPassOf self.now b }
        ensures turn { IsPassOf self.now result }
        ensures longer { result.seen ≡ longer a.seen b.seen }
        ensures begins { IsPrefix a.seen result.seen × IsPrefix b.seen result.seen }
        ensures versions { result.versions ≡ a.versions ++ b.versions }
        ensures parts { result.parts ≡ a.parts + b.parts }
    {
        let Pass { mut seat } = a;
        let Pass { seat: other } = b;
        merge(&self.table.shared, &mut seat, other);
        Pass { seat }
    }

    /// Ends the turn and gives its value, for a pass that every other was joined into. The value's list begins with
    /// what the pass has seen, and the pass notes the version of each entry once, and no other.
    pub fn close(self, pass: Pass<V>) -> V
        requires turn { IsPassOf self pass }
        requires whole { pass.parts ≡ PASS_PARTS }
        ensures base { V.base result ≡ self.base }
        ensures seen { IsPrefix pass.seen (V.list result) }
        ensures versions { (n : ℕ) → times n pass.versions
            ≡ times n (versions_after (V.first self.base) (length (V.list result))) }
    {
        let Turn { table } = self;
        let Pass { seat } = pass;
        let mut closed = table.close_with(seat);
        let slot = closed.take(0);
        closed.free();
        let Some(value) = slot else { unreachable!() };
        value
    }
}

/// The value that is held, to be read and changed.
pub fn value<'a, V: Turned>(held: &'a mut Held<V>) -> &'a mut V
    ensures* writes_back { sem 𝓛 (Lends (the_row V.row V.Base.row V.Entry.row V.Turned) V.row held.entry result
        (λ w. record held.old { value = w })) }
    ensures value { result.now ≡ held.old.value }
{
    &mut held.value
}

// A list of one slot, with the value in it, or else the value.
fn one<V>(alloc: Global, value: V) -> Result<Vec<Option<V>>, V>
    ensures ok { IfOk result (λ slots. slots.items ≡ Some value ∷ []) }
    ensures err { IfErr result (λ back. back ≡ value) }
{
    let mut slots = Vec::new(alloc);
    let Err(failed) = slots.push(Some(value)) else {
        return Ok(slots);
    };
    slots.destroy_empty();
    let AllocFailed { value: slot } = failed;
    let Some(value) = slot else { unreachable!() };
    Err(value)
}

// The value in the one slot.
fn only<V>(mut slots: Vec<Option<V>>) -> V
    requires { (x : V) × (slots.items ≡ Some x ∷ []) }
    ensures { slots.items ≡ Some result ∷ [] }
{
    let last = slots.pop();
    slots.destroy_empty();
    let Some(Some(value)) = last else {
        unreachable!()
    };
    value
}
