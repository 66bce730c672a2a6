// Laws on runs of calls, each stated by a function that does nothing.
ghost use Rattle.rmx_edge.specs.Laws.{FilesAreTakes, FlushesStopWrites, BytesAreCounted};

/// A file that is written in pieces is one closed take of all their bytes.
pub fn files_are_takes()
    ensures { FilesAreTakes }
{}

/// A refused flush after a run that ended in a write is a refusal of that write, which kept its whole piece.
pub fn flushes_stop_writes()
    ensures { FlushesStopWrites }
{}

/// The bytes that are counted are those of the pieces of all calls that were made, at most 2^64 - 1.
pub fn bytes_are_counted()
    ensures { BytesAreCounted }
{}
