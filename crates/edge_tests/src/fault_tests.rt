//! Faults of a frame and of the store, told alike.
use frames::fault::{Fault, Flaw, Reason};
use rules::Denial;

/// Number, layer and place of a fault.
fn told<R: Reason>(fault: Fault<R>) -> (u32, u32, usize) {
    (fault.reason.number(), fault.layer(), fault.place)
}

#[test]
fn tells_number_layer_and_place(rt: HostRuntime) {
    assert_eq!(rt; told(Flaw::WrongKind.at(3)), (4, 1, 3));
    assert_eq!(rt; told(Denial::WrongGrant.at(5)), (13, 2, 5));
}
