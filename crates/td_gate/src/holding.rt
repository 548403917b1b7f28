//! A gate that holds sessions by rules.
ghost use Rattle.std.specs.Prelude.{◌≡◌, ◌<◌, ◌≤◌, ◌↔◌, [], true, false, IsTrue, IsSome, IfSome, IfOk, vec_len};
ghost use Rattle.td_gate.specs.declared.holding.TheConstants.{SESSION_NUMBERS};

use std::alloc::Global;
use std::hint;
use std::marker::Model;
use std::sync::atomic::Ordering::SeqCst;
use std::sync::atomic::{AtomicBool, AtomicU64};
use td_layer::{NoMem, Seq};
use td_limits::SESSIONS;
use td_outside::{Gate, GatePoint};

/// A rule: `session` is held where it reaches `point` for the `nth` time, from 1, until session `other` has reached the
/// point `reached` `times` times. Sessions are numbered 0 to 64; no other session ever reaches a point.
#[derive(Clone, Copy, Debug, PartialEq, Eq)]
pub struct Hold {
    pub session: u32,
    pub point: GatePoint,
    pub nth: u32,
    pub other: u32,
    pub reached: GatePoint,
    pub times: u32,
}

impl Hold {
    /// Whether the rule holds this session, which reaches this point for the `nth` time.
    fn is_for(&self, session: u32, point: GatePoint, nth: u64) -> bool
        ensures { IsTrue result ↔ ((self.now.session ≡ session) × ((self.now.point ≡ point) × (self.now.nth ≡ nth))) }
    {
        self.session == session && self.point == point && u64::from(self.nth) == nth
    }
}

/// A rule, and whether a session was ever held by it up to the limit.
#[derive(Drop)]
struct Held {
    hold: Hold,
    in_vain: AtomicBool,
}

/// How many sessions are counted: 0 to 64.
const SESSION_NUMBERS: usize = SESSIONS as usize + 1;

/// A gate that holds sessions by rules, each for at most `limit` looks whether the rule is met. Contracts see it as its
/// rules and its limit; how often a session was where, and which rule was looked at in vain, no contract can see.
#[derive(Drop)]
pub struct HoldGate {
    held: Vec<Held>,
    limit: u64,
    /// How often each session reached `Start`, `Pinned` and `Replied`, modulo 2^64.
    counts: Vec<[AtomicU64; 3]>,
}

impl Model for HoldGate {
    ghost use Rattle.std.specs.Prelude.{◌≡◌, map, vec_len};
    ghost use Rattle.td_gate.specs.declared.holding.TheConstants.{SESSION_NUMBERS};
    ghost use Rattle.td_gate.specs.Rules.{Guard};

    ghost Value = { Guard };

    ghost view = { λ g. record { rules = map (λ h. h.hold) g.held.items; limit = g.limit } };

    ghost invariant = { λ g. vec_len g.counts ≡ SESSION_NUMBERS };
}

impl HoldGate {
    /// A gate with these rules, which holds a session for at most `limit` looks a rule; a hold without a look is in
    /// vain. No session has reached a point so far. It takes all its memory here.
    pub fn new(alloc: Global, rules: Seq<Hold>, limit: u64) -> Result<HoldGate, NoMem>
        ensures { IfOk result (λ g. g ≡ record { rules = rules; limit = limit }) }
    {
        let mut held = Vec::new(alloc);
        for hold in rules.as_slice() {
            held.push(Held {
                hold: *hold,
                in_vain: AtomicBool::new(false),
            })?;
        }
        let counts = no_counts(alloc)?;
        Ok(HoldGate {
            held,
            limit,
            counts,
        })
    }

    /// Whether a session was held until its rule had been looked at `limit` times in vain. Without rules none ever was.
    pub fn met_limit(&self) -> bool
        ensures no_rules { self.now.rules ≡ [] → result ≡ false }
    {
        self.held.iter().any(|held| held.in_vain.load(SeqCst))
    }

    /// Counts that a session reaches a point, and gives for which time it does. Of a session above 64 it counts
    /// nothing.
    fn count(&self, session: u32, point: GatePoint) -> Option<u64>
        ensures counted { IsSome result ↔ (session ≤ 64) }
        ensures from_one { IfSome result (λ n. 0 < n) }
    {
        let counts = self.counts.get(session as usize)?;
        Some(
            counts[point as usize]
                .fetch_add(1, SeqCst)
                .saturating_add(1),
        )
    }

    /// How often a session has reached a point.
    fn reached(&self, session: u32, point: GatePoint) -> u64
        ensures nobody { 64 < session → result ≡ 0 }
    {
        match self.counts.get(session as usize) {
            Some(counts) => counts[point as usize].load(SeqCst),
            None => 0,
        }
    }

    /// Looks once whether a rule is met.
    fn is_met(&self, hold: &Hold) -> bool
        ensures at_once { hold.now.times ≡ 0 → result ≡ true }
        ensures never { 64 < hold.now.other → 0 < hold.now.times → result ≡ false }
    {
        self.reached(hold.other, hold.reached) >= u64::from(hold.times)
    }

    /// Looks until a rule is met, at most `limit` times, and says whether it was.
    fn is_met_in_time(&self, hold: &Hold) -> bool
        ensures at_once { hold.now.times ≡ 0 → 0 < self.now.limit → result ≡ true }
        ensures never { 64 < hold.now.other → 0 < hold.now.times → result ≡ false }
        ensures no_look { self.now.limit ≡ 0 → result ≡ false }
    {
        for _ in 0..self.limit {
            if self.is_met(hold) {
                return true;
            }
            hint::spin_loop();
        }
        false
    }
}

/// A count of 0 for each session at each point.
fn no_counts(alloc: Global) -> Result<Vec<[AtomicU64; 3]>, NoMem>
    ensures { IfOk result (λ v. vec_len v ≡ SESSION_NUMBERS) }
{
    let mut counts = Vec::with_capacity(alloc, SESSION_NUMBERS)?;
    for _ in 0..SESSION_NUMBERS {
        counts.push([AtomicU64::new(0), AtomicU64::new(0), AtomicU64::new(0)])?;
    }
    Ok(counts)
}

impl Gate for HoldGate {
    /// Counts that the session is at the point, and holds it there until each rule for it is met or was looked at
    /// `limit` times in vain, which it remembers.
    fn pass(&self, session: u32, point: GatePoint) {
        let Some(nth) = self.count(session, point) else {
            return;
        };
        for held in self.held.as_slice() {
            if held.hold.is_for(session, point, nth) && !self.is_met_in_time(&held.hold) {
                held.in_vain.store(true, SeqCst);
            }
        }
    }
}
