// Laws on files of frames, each stated by a function that does nothing.
ghost use Rattle.aac_adts.specs.Laws.{FilesAreFrames};

/// A whole file is one closed take, which holds the packets' frames one after another.
pub fn files_are_frames()
    ensures { FilesAreFrames }
{}
