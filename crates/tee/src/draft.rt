// An output before it has its shelf.
ghost use Rattle.std.specs.Prelude.{◌≡◌, ◌≢◌, length, option_map, IfOk, IfErr, IfSome};
ghost use Rattle.options.specs.Slave.{view};
ghost use Rattle.options.specs.Valid.{IsValid};
ghost use Rattle.rmx_media.specs.Streams.{AreInfos, CanMux, IsScript};
ghost use Rattle.slave.specs.Prepared.{IsPrepared};
ghost use Rattle.tee.specs.Choice.{chosen_streams as streams_chosen};
ghost use Rattle.tee.specs.None.{none_in};

use crate::choice::{Choice, chosen_streams};
use crate::fault::TeeFault;
use bytes::Bytes;
use options::SlavePlan;
use playlist::SegOptions;
use rmx_media::{MuxStreams, NoMemory, StreamInfo};
use slave::SlaveKit;
use std::alloc::Global;

/// What an output takes before it has its shelf.
#[derive(Drop)]
pub struct Draft {
    pub kit: SlaveKit,
    pub choice: Choice,
}

fn segments_of(alloc: Global, seg: &Option<SegOptions>) -> Result<Option<SegOptions>, NoMemory>
    ensures { IfOk result (λ copy. copy ≡ seg.now) }
{
    match seg {
        Some(options) => Ok(Some(options.copy(alloc)?)),
        None => Ok(None),
    }
}

fn kit_of(alloc: Global, plan: &SlavePlan, streams: MuxStreams) -> Result<SlaveKit, NoMemory>
    requires valid { IsValid (view plan.now) }
    requires streams { CanMux streams }
    ensures { IfOk result (λ kit. IsPrepared (view plan.now).name (view plan.now).format (view plan.now).seg (view plan.now).fifo streams kit) }
{
    let name = match String::from_str(alloc, plan.name.as_str()) {
        Ok(name) => name,
        Err(_) => return Err(NoMemory),
    };
    let seg = segments_of(alloc, &plan.seg)?;
    SlaveKit::new(alloc, name, plan.format, seg, plan.fifo, streams)
}

impl Draft {
    ghost use Rattle.tee.specs.Draft.{IsDraft};

    /// Takes the memory of the output of that plan and number.
    pub fn new(
        alloc: Global,
        number: u32,
        plan: &SlavePlan,
        infos: &[StreamInfo],
        script: Option<&Bytes>,
    ) -> Result<Draft, TeeFault>
        requires valid { IsValid (view plan.now) }
        requires infos { AreInfos infos.now }
        requires script { IsScript (option_map (λ body. body.now) script) }
        ensures made { IfOk result (λ draft. IsDraft infos.now (option_map (λ body. body.now) script.entry) (view plan.now) draft) }
        ensures taken { IfOk result (λ draft. length (streams_chosen (view plan.now) infos.now) ≢ 0) }
        ensures none { IfErr result (λ fault. IfSome (none_in fault) (λ slave. (slave ≡ number) × (length (streams_chosen (view plan.now) infos.now) ≡ 0))) }
    {
        let streams = match chosen_streams(alloc, plan, infos, script) {
            Ok(streams) => streams,
            Err(_) => return Err(TeeFault::NoMemory),
        };
        if streams.streams.as_slice().is_empty() {
            return Err(TeeFault::NoneSelected { slave: number });
        }
        match kit_of(alloc, plan, streams) {
            Ok(kit) => Ok(Draft {
                kit,
                choice: Choice::of(plan, infos),
            }),
            Err(_) => Err(TeeFault::NoMemory),
        }
    }
}
