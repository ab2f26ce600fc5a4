//! Laws of transfers, each as the contract of a function that does nothing.

ghost use Rattle.rep_transfer.specs.Telling.{PartsAreTold, TransfersAreTold};

/// Bytes that begin with a transfer, of either format, begin with no other, whatever stands behind it. So what a donor wrote is what a
/// joiner takes.
pub fn transfers_are_told()
    ensures { TransfersAreTold }
{}

/// What is taken, part by part, of bytes that begin with a transfer is a front of that transfer: so a joiner that was cut short of a whole
/// one stands at a part of it.
pub fn parts_are_told()
    ensures { PartsAreTold }
{}
