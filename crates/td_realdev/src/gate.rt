//! A gate that does nothing.
use td_outside::{Gate, GatePoint};

/// A gate that lets every session pass.
#[derive(Drop)]
pub struct OpenGate;

impl Gate for OpenGate {
    fn pass(&self, _session: u32, _point: GatePoint) {}
}
