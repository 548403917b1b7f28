//! [run] The program: it makes the real devices, and `td_top` does all else.
//!
//! It stands on `td_top` for all that it does, and on `td_realdev` for the devices: the streams, the directory, the
//! clock and the gate.
#![tactic(auto)]

use std::env;
use std::process::ExitCode;
use td_realdev::{DirPlace, OpenGate, StandardInput, StandardOutput, SystemClock};
use td_top::program;

fn main(rt: HostRuntime) -> ExitCode {
    let Ok(of_place) = rt.clone() else {
        return ExitCode::FAILURE;
    };
    let Ok(of_clock) = rt.clone() else {
        return ExitCode::FAILURE;
    };
    let alloc = rt.alloc();
    let mut place = DirPlace::new(of_place);
    program(
        &rt,
        alloc,
        env::args(&rt),
        &mut StandardInput::new(rt.stdin()),
        &mut StandardOutput::new(rt.stdout()),
        &mut StandardOutput::new(rt.stderr()),
        &mut place,
        SystemClock::new(of_clock),
        &OpenGate,
    )
}
