// What holds of the order in which packets go out.
ghost use Rattle.interleaver.specs.Sorting.{SortsAtDeltaNought, PendingIsSorted, WidthIsOfTheLast};
ghost use Rattle.interleaver.specs.Interleave.{EmittedOnlyGrows};

/// However many packets follow, what went out stays the beginning.
pub fn emitted_only_grows()
    ensures { EmittedOnlyGrows }
{}

/// Where the list may be as wide as it likes, the whole order is a stable sort by dts and stream.
pub fn sorts_at_delta_nought()
    ensures { SortsAtDeltaNought }
{}

/// The pending list is sorted, so that its last packet tells how wide it is.
pub fn pending_is_sorted()
    ensures sorted { PendingIsSorted }
    ensures width { WidthIsOfTheLast }
{}
