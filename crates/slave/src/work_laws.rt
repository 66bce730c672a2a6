// What holds of a worker's turns.
ghost use Rattle.slave.specs.TurnAt.{TurnsAreExact};

/// A message is flushed exactly where the number of refused offers that its turn saw is above all that were seen before, and
/// then by that number. At most as many are flushed in a turn as may wait.
pub fn turns_are_exact()
    ensures { TurnsAreExact }
{}
