// The lanes of a run's outputs, made before any thread is started.
ghost use Rattle.std.specs.Prelude.{IfOk};
ghost use Rattle.options.specs.Slave.{view};
ghost use Rattle.options.specs.Valid.{IsValid};
ghost use Rattle.rmx_media.specs.Streams.{AreInfos};
ghost use Rattle.tee.specs.LaneKits.{IsKitOf};

use crate::choice::{chosen_streams, file_format};
use lane::{Giver, Lane, Receipt, Taker};
use options::SlavePlan;
use rmx_media::{Items, NoMemory, StreamInfo};
use std::alloc::Global;
use std::sync::Arc;

/// A lane with both its ends, and the gate for its thread: all memory that an output with a thread takes besides its draft.
#[derive(Drop)]
pub struct LaneKit<G> {
    pub lane: Arc<Lane>,
    pub theirs: Arc<Lane>,
    pub giver: Giver,
    pub taker: Taker,
    pub gate: Arc<G>,
    /// None yet.
    pub receipts: Items<Receipt>,
    pub cap: u32,
    pub drops: bool,
}

impl<G: Drop> LaneKit<G> {
    ghost use Rattle.tee.specs.LaneKits.{IsKitOf, IsLaneKit};

    // Makes the lane of an output.
    fn new(
        alloc: Global,
        plan: &SlavePlan,
        infos: &[StreamInfo],
        gate: &Arc<G>,
    ) -> Result<LaneKit<G>, NoMemory>
        requires valid { IsValid (view plan.now) }
        requires infos { AreInfos infos.now }
        ensures { IfOk result (IsLaneKit infos.now (view plan.now)) }
    {
        let streams = match chosen_streams(alloc, plan, infos, None) {
            Ok(streams) => streams,
            Err(refused) => return Err(refused),
        };
        let fifo = plan.fifo;
        let format = file_format(plan.format, &plan.seg);
        let made = Lane::new(
            alloc,
            fifo.queue_size,
            fifo.queue_bytes,
            fifo.dropping,
            format,
            &streams,
        );
        let (lane, giver, taker) = match made {
            Ok(made) => made,
            Err(refused) => return Err(refused),
        };
        let Ok(lane) = Arc::new(alloc, lane) else {
            return Err(NoMemory);
        };
        let Ok(theirs) = Arc::try_clone(&lane) else {
            return Err(NoMemory);
        };
        let Ok(gate) = Arc::try_clone(gate) else {
            return Err(NoMemory);
        };
        Ok(LaneKit {
            lane,
            theirs,
            giver,
            taker,
            gate,
            receipts: Items::new(alloc),
            cap: fifo.queue_size,
            drops: fifo.dropping,
        })
    }

    /// Makes the lane of an output that is to have a thread.
    pub fn if_asked(
        alloc: Global,
        plan: &SlavePlan,
        infos: &[StreamInfo],
        gate: &Arc<G>,
    ) -> Result<Option<LaneKit<G>>, NoMemory>
        requires valid { IsValid (view plan.now) }
        requires infos { AreInfos infos.now }
        ensures { IfOk result (IsKitOf infos.now (view plan.now)) }
    {
        if !plan.fifo.use_fifo {
            return Ok(None);
        }
        match LaneKit::new(alloc, plan, infos, gate) {
            Ok(kit) => Ok(Some(kit)),
            Err(refused) => Err(refused),
        }
    }
}
