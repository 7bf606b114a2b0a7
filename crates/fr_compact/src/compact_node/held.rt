//! Asks that met a fault.
use fr_base::NodeFault;

/// Asks that met a fault of the device.
#[derive(Drop)]
pub(super) struct Held<A> {
    pub asks: Vec<A>,
    /// Whether their records were on the way to the file. If not, no crash leaves them (invariant 3).
    pub is_in_flight: bool,
}

/// Why asks were not served, and whether their records were on the way to the file.
#[derive(Clone, Copy)]
pub(super) struct Unserved {
    pub fault: NodeFault,
    pub is_in_flight: bool,
}
