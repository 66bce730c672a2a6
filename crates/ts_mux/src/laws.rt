// Laws on files, each stated by a function that does nothing.
ghost use Rattle.ts_mux.specs.Laws.{FilesAreCells};

/// Each write of a file is a cell of 188 bytes.
pub fn files_are_cells()
    ensures { FilesAreCells }
{}
