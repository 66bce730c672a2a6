// An output of a run before it has its shelf.
ghost use Rattle.std.specs.Prelude.{◌≡◌, ◌≢◌, ◌≤◌, All, length, map, option_map, IfOk, IfErr, IfSome, None, Some};
ghost use Rattle.std.specs.List.{AllZip};
ghost use Rattle.options.specs.Slave.{view};
ghost use Rattle.options.specs.Valid.{IsValid};
ghost use Rattle.rmx_media.specs.Streams.{AreInfos, IsScript};
ghost use Rattle.tee.specs.Berths.{IsBerth};
ghost use Rattle.tee.specs.Choice.{chosen_streams as streams_chosen};
ghost use Rattle.tee.specs.None.{none_in};
ghost use Rattle.tee.specs.Seat.{first_without};

use crate::draft::Draft;
use crate::fault::TeeFault;
use crate::lanes::LaneKit;
use bytes::Bytes;
use options::SlavePlan;
use rmx_media::StreamInfo;
use std::alloc::Global;
use std::sync::Arc;

/// What an output of a run takes before it has its shelf.
#[derive(Drop)]
pub struct Berth<G> {
    pub draft: Draft,
    /// Its lane, where it is to have a thread.
    pub lane: Option<LaneKit<G>>,
}

impl<G: Drop> Berth<G> {
    // Takes the memory of the output of that plan and number.
    fn new(
        alloc: Global,
        number: u32,
        plan: &SlavePlan,
        infos: &[StreamInfo],
        script: Option<&Bytes>,
        gate: &Arc<G>,
    ) -> Result<Berth<G>, TeeFault>
        requires valid { IsValid (view plan.now) }
        requires infos { AreInfos infos.now }
        requires script { IsScript (option_map (λ body. body.now) script) }
        ensures made { IfOk result (λ berth. IsBerth infos.now (option_map (λ body. body.now) script.entry) (view plan.now) berth) }
        ensures taken { IfOk result (λ berth. length (streams_chosen (view plan.now) infos.now) ≢ 0) }
        ensures none { IfErr result (λ fault. IfSome (none_in fault) (λ slave. (slave ≡ number) × (length (streams_chosen (view plan.now) infos.now) ≡ 0))) }
    {
        let draft = match Draft::new(alloc, number, plan, infos, script) {
            Ok(draft) => draft,
            Err(fault) => return Err(fault),
        };
        match LaneKit::if_asked(alloc, plan, infos, gate) {
            Ok(lane) => Ok(Berth { draft, lane }),
            Err(_) => Err(TeeFault::NoMemory),
        }
    }
}

/// The outputs of these plans before they have their shelves, or the first fault.
pub fn berths_of<G: Drop>(
    alloc: Global,
    slaves: &[SlavePlan],
    infos: &[StreamInfo],
    script: Option<&Bytes>,
    gate: &Arc<G>,
) -> Result<Vec<Berth<G>>, TeeFault>
    requires few { length slaves.now ≤ 16 }
    requires valid { All IsValid (map view slaves.now) }
    requires infos { AreInfos infos.now }
    requires script { IsScript (option_map (λ body. body.now) script) }
    ensures made { IfOk result (λ berths. AllZip (IsBerth infos.now (option_map (λ body. body.now) script.entry)) (map view slaves.now) berths.items) }
    ensures taken { IfOk result (λ berths. first_without infos.now (map view slaves.now) ≡ None) }
    ensures none { IfErr result (λ fault. IfSome (none_in fault) (λ slave. first_without infos.now (map view slaves.now) ≡ Some slave)) }
{
    let mut berths = Vec::new(alloc);
    for (number, plan) in slaves.iter().enumerate() {
        let berth = Berth::new(alloc, number as u32, plan, infos, script, gate)?;
        match berths.push(berth) {
            Ok(()) => {}
            Err(_) => return Err(TeeFault::NoMemory),
        }
    }
    Ok(berths)
}
