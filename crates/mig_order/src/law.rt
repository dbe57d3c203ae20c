ghost use Rattle.mig_order.specs.Gate.{FaultlessIsInOrder};

/// A type has no fault behind others exactly where the order allows it there.
pub fn order_law()
    ensures { FaultlessIsInOrder }
{}
