// Laws on files of FLV, each stated by a function that does nothing.
ghost use Rattle.flv_mux.specs.Laws.{FilesAreTags};

/// A whole file is one closed take: the head, the packets' tags, the tail.
pub fn files_are_tags()
    ensures { FilesAreTags }
{}
