// The end of all outputs of a run.
ghost use Rattle.std.specs.Prelude.{◌≡◌, ◌≤◌, ◌<◌, ◌+◌, ◌++◌, ◌∷◌, ◌||◌, [], ℕ, List, false, true, length, map};
ghost use Rattle.rmx_media.specs.declared.packet.Packet.{Packet};
ghost use Rattle.rmx_media.specs.declared.streams.StreamInfo.{StreamInfo};
ghost use Rattle.tee.specs.Attends.{Attends};
ghost use Rattle.tee.specs.Each.{Each3};
ghost use Rattle.tee.specs.Fails.{any_want};
ghost use Rattle.tee.specs.RunEnds.{AllEndWith};
ghost use Rattle.tee.specs.Seat.{Seat};
ghost use Rattle.tee.specs.Tracks.{Track};

use crate::outlet::Outlet;
use rmx_edge::{Gate, Shelf};
use rmx_media::Items;
use slave::SlaveEnd;
use std::alloc::Global;
use std::sync::Wait;
use std::thread::Threads;

// Says to each lane that nothing more comes.
fn close_each<S: Shelf, G>(outlets: &mut [Outlet<S, G>])
    requires ready { (infos : List StreamInfo) × (given : List Packet) × (asked : ℕ) × (seats : List Seat) × (tracks : List Track) × Each3 (Attends S.state infos given asked false) seats tracks outlets.old }
    ensures { (infos : List StreamInfo) (given : List Packet) (asked : ℕ) (seats : List Seat) (tracks : List Track)
        → Each3 (Attends S.state infos given asked false) seats tracks outlets.old → Each3 (Attends S.state infos given asked true) seats tracks outlets.new }
{
    for outlet in outlets.iter_mut() {
        outlet.close();
    }
}

/// Says to each lane that nothing more comes.
pub fn close_all<S: Shelf, G>(outlets: &mut Vec<Outlet<S, G>>)
    requires ready { (infos : List StreamInfo) × (given : List Packet) × (asked : ℕ) × (seats : List Seat) × (tracks : List Track) × Each3 (Attends S.state infos given asked false) seats tracks outlets.old.items }
    ensures attend { (infos : List StreamInfo) (given : List Packet) (asked : ℕ) (seats : List Seat) (tracks : List Track)
        → Each3 (Attends S.state infos given asked false) seats tracks outlets.old.items → Each3 (Attends S.state infos given asked true) seats tracks outlets.new.items }
    ensures len { length outlets.new.items ≡ length outlets.old.items }
{
    close_each(outlets.as_mut_slice());
}

// One end more, and whether memory was wanted so far.
fn with_end<S>(
    ends: Items<SlaveEnd<S>>,
    short: bool,
    end: SlaveEnd<S>,
    wanted: bool,
) -> (Items<SlaveEnd<S>>, bool)
    requires room { 0 < ends.spare }
    ensures items { result.0.items ≡ ends.items ++ end ∷ [] }
    ensures spare { result.0.spare + 1 ≡ ends.spare }
    ensures short { result.1 ≡ (short || wanted) }
{
    let mut ends = ends;
    ends.push(end);
    (ends, short || wanted)
}

/// Ends each output. Those that the reader writes end first, so that a thread which hangs holds up none of their files; then the
/// threads are waited for in order. There is a place for each end. The answer true says that memory was wanted for the refusals of
/// a lane.
pub fn finish_each<S: Shelf + Drop, G: Gate + Drop, R: Threads + Wait>(
    rt: &R,
    alloc: Global,
    outlets: Vec<Outlet<S, G>>,
    ends: Items<SlaveEnd<S>>,
) -> (Items<SlaveEnd<S>>, bool)
    requires attend { (infos : List StreamInfo) × (given : List Packet) × (seats : List Seat) × (tracks : List Track) × Each3 (Attends S.state infos given (length given) true) seats tracks outlets.items }
    requires none { ends.items ≡ [] }
    requires room { length outlets.items ≤ ends.spare }
    ensures ends { (infos : List StreamInfo) (given : List Packet) (seats : List Seat) (tracks : List Track)
        → Each3 (Attends S.state infos given (length given) true) seats tracks outlets.items → AllEndWith S.state given seats tracks result.0.items result.1 }
    ensures short { result.1 ≡ true → any_want (map (λ e. e.state) result.0.items) ≡ true }
    ensures left { result.0.spare + length outlets.items ≡ ends.spare }
{
    let mut outlets = outlets;
    let Some(outlet) = outlets.pop() else {
        return (ends, false);
    };
    if outlet.has_thread() {
        let (before, short) = finish_each(rt, alloc, outlets, ends);
        let (end, wanted) = outlet.finish(rt, alloc);
        with_end(before, short, end, wanted)
    } else {
        let (end, wanted) = outlet.finish(rt, alloc);
        let (before, short) = finish_each(rt, alloc, outlets, ends);
        with_end(before, short, end, wanted)
    }
}
