//! What a guarded device promises, whatever frames come, each law as the contract of an empty function.
ghost use Rattle.guard.specs.GuardedDevice.Laws.{OffChangesNothing, PassInOrder};

/// The frames that a host gets to see are of those that arrived, as they were, and in their order.
pub fn pass_in_order()
    ensures { PassInOrder }
{}

/// Behind a guard that is off it gets to see all, and the guard stays as it was.
pub fn off_changes_nothing()
    ensures { OffChangesNothing }
{}
