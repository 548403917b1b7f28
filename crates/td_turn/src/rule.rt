//! The rule of the turn's table: what each seat knows, and what each step tells it. Nothing here runs.

use crate::turned::Turned;
use atomic_table::{Join, Play, Split, TableRule};
use std::collections::LinkedList;
use std::snapshot::Snapshot;

/// Whether a seat has a ticket, and whether it holds the value.
pub enum Stage {
    Idle,
    Waits(u64),
    Holds(u64),
}

/// What a seat knows: the base, the entries that were seen, a further list that it was joined with, the versions that
/// it notes, its parts, and its ticket. No value of it is made.
pub struct View<B, E> {
    pub base: Option<B>,
    pub seen: LinkedList<E>,
    pub also: LinkedList<E>,
    pub versions: LinkedList<u64>,
    pub parts: u64,
    pub stage: Stage,
}

/// The rule.
pub struct Law;

impl<V: Turned> TableRule<Option<V>, View<V::Base, V::Entry>, Snapshot<V>> for Law {
    ghost use Rattle.td_turn.specs.Rule.{IsKept};
    ghost use Rattle.td_turn.specs.Views.{opening_view};

    ghost holds = { λ key. IsKept V.base V.first V.list (V.base key.value) };

    ghost first = { λ key. opening_view (V.base key.value) };
}

/// A ticket is drawn.
pub struct Draw;

impl<V: Turned> Play<Option<V>, View<V::Base, V::Entry>> for Draw {
    ghost use Rattle.td_turn.specs.Rule.{Draws};

    ghost then = { Draws V.base V.first V.list };
}

/// The number that is served is watched, and where it is the seat's ticket the slot is taken.
pub struct Watch;

impl<V: Turned> Play<Option<V>, View<V::Base, V::Entry>> for Watch {
    ghost use Rattle.td_turn.specs.Rule.{Watches};

    ghost then = { Watches V.base V.first V.list };
}

/// The front counts further entries.
pub struct Count;

impl<V: Turned> Play<Option<V>, View<V::Base, V::Entry>> for Count {
    ghost use Rattle.td_turn.specs.Rule.{Counts};

    ghost then = { Counts V.base V.first V.list };
}

/// The slot is given back, and the next ticket is served.
pub struct PassOn;

impl<V: Turned> Play<Option<V>, View<V::Base, V::Entry>> for PassOn {
    ghost use Rattle.td_turn.specs.Rule.{Passes};

    ghost then = { Passes V.base V.first V.list };
}

/// The front is looked at, which tells that of two lists that were seen the longer begins with the other.
pub struct Tell;

impl<V: Turned> Play<Option<V>, View<V::Base, V::Entry>> for Tell {
    ghost use Rattle.td_turn.specs.Rule.{Tells};

    ghost then = { Tells V.base V.first V.list };
}

/// One part goes to a new seat.
pub struct Cut;

impl<B, E> Split<View<B, E>> for Cut {
    ghost use Rattle.td_turn.specs.Views.{kept_view, new_view};

    ghost left = { kept_view };

    ghost right = { new_view };
}

/// Two views become one.
pub struct Merge;

impl<B, E> Join<View<B, E>> for Merge {
    ghost use Rattle.td_turn.specs.Views.{joined_view, spent_view};

    ghost both = { joined_view };

    ghost spent = { spent_view };
}
