//! What a gate counted, and whether it met its limit.
use std::alloc::Global;
use std::process::Abort;
use std::test::Fail;
use td_gate::{Hold, HoldGate};
use td_layer::{NoMem, Seq};
use td_outside::GatePoint::{Pinned, Replied, Start};
use td_outside::{Gate, GatePoint};

/// Holds session 2 at its first start until session 1 has reached `Pinned` once.
const FIRST_START: Hold = Hold {
    session: 2,
    point: Start,
    nth: 1,
    other: 1,
    reached: Pinned,
    times: 1,
};

/// A gate of these rules, which looks ten times.
fn gate_of(alloc: Global, rules: &[Hold]) -> Result<HoldGate, NoMem> {
    let list = Vec::from_slice(alloc, rules)?;
    HoldGate::new(alloc, Seq::from_vec(alloc, list), 10)
}

/// Whether a gate met its limit, at first and after these passes.
fn met_after(
    alloc: Global,
    rules: &[Hold],
    passes: &[(u32, GatePoint)],
) -> Result<(bool, bool), NoMem> {
    let gate = gate_of(alloc, rules)?;
    let first = gate.met_limit();
    for (session, point) in passes {
        gate.pass(*session, *point);
    }
    let last = gate.met_limit();
    drop(gate);
    Ok((first, last))
}

/// Asserts that a gate of these rules met its limit after these passes, or didn't, and that it hadn't at first.
fn meets(
    rt: &impl Abort,
    alloc: Global,
    case: usize,
    rules: &[Hold],
    passes: &[(u32, GatePoint)],
    met: bool,
) -> Result<(), NoMem> {
    let seen = met_after(alloc, rules, passes)?;
    assert_eq!(rt; seen, (false, met), "case {case}");
    Ok(())
}

#[test]
fn a_gate_holds_until_another_session_is_there(rt: HostRuntime) -> Result<(), Fail> {
    let rules = [FIRST_START];
    let cases: [(&[(u32, GatePoint)], bool); 8] = [
        // met before the session comes, and met too late
        (&[(1, Pinned), (2, Start)], false),
        (&[(2, Start)], true),
        (&[(2, Start), (1, Pinned), (2, Start)], true),
        // another point is another point, also of the same session
        (&[(1, Start), (1, Replied), (2, Start)], true),
        (&[(2, Pinned), (2, Replied)], false),
        // another session is another session
        (&[(3, Start), (1, Start), (0, Start)], false),
        (&[(2, Pinned), (3, Pinned), (2, Start)], true),
        // a number that no session has
        (&[(65, Start), (4294967295, Start)], false),
    ];
    for (i, (passes, met)) in cases.iter().enumerate() {
        meets(&rt, rt.alloc(), i, &rules, passes, *met)?;
    }
    Ok(())
}

#[test]
fn a_rule_counts_times_from_one(rt: HostRuntime) -> Result<(), Fail> {
    let second = Hold {
        nth: 2,
        ..FIRST_START
    };
    let twice = Hold {
        times: 2,
        ..FIRST_START
    };
    let last = Hold {
        session: 64,
        point: Replied,
        other: 0,
        ..FIRST_START
    };
    let nobody = Hold {
        other: 65,
        ..FIRST_START
    };
    let itself = Hold {
        other: 2,
        reached: Start,
        ..FIRST_START
    };
    let cases: [(Hold, &[(u32, GatePoint)], bool); 12] = [
        (second, &[(2, Start)], false),
        (second, &[(2, Start), (2, Start)], true),
        (second, &[(2, Start), (1, Pinned), (2, Start)], false),
        (
            Hold {
                nth: 0,
                ..FIRST_START
            },
            &[(2, Start)],
            false,
        ),
        (twice, &[(1, Pinned), (2, Start)], true),
        (twice, &[(1, Pinned), (1, Pinned), (2, Start)], false),
        (
            Hold {
                times: 0,
                ..FIRST_START
            },
            &[(2, Start)],
            false,
        ),
        (last, &[(64, Replied)], true),
        (last, &[(0, Pinned), (64, Replied)], false),
        (nobody, &[(65, Pinned), (2, Start)], true),
        // the session has reached the point at which it is held
        (itself, &[(2, Start)], false),
        (Hold { times: 2, ..itself }, &[(2, Start)], true),
    ];
    for (i, (rule, passes, met)) in cases.iter().enumerate() {
        meets(&rt, rt.alloc(), i, &[*rule], passes, *met)?;
    }
    Ok(())
}

#[test]
fn each_rule_is_looked_at(rt: HostRuntime) -> Result<(), Fail> {
    let met = Hold {
        session: 1,
        point: Pinned,
        other: 2,
        reached: Replied,
        times: 4,
        ..FIRST_START
    };
    let replies: [(u32, GatePoint); 5] = [
        (2, Replied),
        (2, Replied),
        (2, Replied),
        (2, Replied),
        (1, Pinned),
    ];
    let at_once = Hold {
        times: 0,
        ..FIRST_START
    };
    let cases: [(&[Hold], &[(u32, GatePoint)], bool); 8] = [
        (&[], &replies, false),
        // two rules at one point
        (&[at_once, FIRST_START], &[(2, Start)], true),
        (&[FIRST_START, at_once], &[(2, Start)], true),
        // two rules at two points
        (&[met, FIRST_START], &replies, false),
        (&[FIRST_START, met], &replies, false),
        (&[FIRST_START, met], &replies[1..], true),
        (&[met, FIRST_START], &replies[1..], true),
        (&[met, FIRST_START], &[(2, Start)], true),
    ];
    for (i, (rules, passes, met)) in cases.iter().enumerate() {
        meets(&rt, rt.alloc(), i, rules, passes, *met)?;
    }
    Ok(())
}
