// Laws on sessions of segments, each stated by a function that does nothing.
ghost use Rattle.segmenter.specs.Laws.{SegmentsAreFiles, ListsNameFiles};

/// A session is whole files, one after another, each of the packets from one cut to the next, and then its list.
pub fn segments_are_files()
    ensures { SegmentsAreFiles }
{}

/// A session's list names each of its files once, in their order.
pub fn lists_name_files()
    ensures { ListsNameFiles }
{}
