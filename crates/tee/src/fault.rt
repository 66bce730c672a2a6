// Why no tee is made.

/// Why no tee is made.
#[derive(Clone, Copy, Debug, PartialEq, Eq)]
pub enum TeeFault {
    /// The output of this number takes none of the streams.
    NoneSelected { slave: u32 },
    NoMemory,
}

/// A refusal hands the shelves back, on which no call was made.
#[derive(Drop)]
pub struct TeeRefused<S> {
    pub fault: TeeFault,
    pub shelves: Vec<S>,
}
