// Where a test can hold a thread.
use std::sync::Wait;

/// A point that a run passes.
#[derive(Clone, Copy, Debug, PartialEq, Eq)]
pub enum Point {
    /// The reader is about to hand a packet to an output's lane.
    BeforeOffer,
    /// A worker begins a turn.
    BeforeTake,
    /// A worker is about to write a packet.
    BeforeWrite,
    /// A worker's output has ended.
    AfterEnd,
}

/// A gate that the reader and the workers of a run pass. It carries no promise: a test holds a thread there.
pub trait Gate {
    /// Passes the point for the output of this number. It may wait.
    fn pass<R: Wait>(&self, rt: &R, slave: u32, point: Point);
}

/// A gate that is passed at once.
#[derive(Clone, Copy, Debug, PartialEq, Eq, Drop)]
pub struct OpenGate;

impl Gate for OpenGate {
    fn pass<R: Wait>(&self, _rt: &R, _slave: u32, _point: Point) {}
}
