//! A gate that holds nobody.
use td_outside::{Gate, GatePoint};

/// A gate that holds nobody.
#[derive(Drop)]
pub struct FreeGate;

impl Gate for FreeGate {
    fn pass(&self, _session: u32, _point: GatePoint) {}
}
