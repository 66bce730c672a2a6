// What an output takes of its input.
ghost use Rattle.std.specs.Prelude.{◌≡◌, ◌≤◌, ◌<◌, ◌&&◌, true, false, List, length, option_map, if◌then◌else◌, Some, None, IfOk};
ghost use Rattle.std.specs.List.{list_any};
ghost use Rattle.options.specs.Filters.{are_short, selects as spec_selects};
ghost use Rattle.options.specs.Slave.{view};
ghost use Rattle.rmx_media.specs.Streams.{AreInfos, kind_in};
ghost use Rattle.rmx_media.specs.declared.streams.MuxStream.{MuxStream as Stream};
ghost use Rattle.tee.specs.Choice.{takes_kind as kind_is_taken, file_format as format_of_files, is_taken as is_stream_taken, chosen_streams as streams_chosen};
ghost use Rattle.tee.specs.Route.{IsRoute};

use bsf_chain::Chain;
use bytes::Bytes;
use options::{SlavePlan, Spec, joined_chain, selects};
use playlist::SegOptions;
use rmx_media::{Format, Items, Kind, MuxStream, MuxStreams, NoMemory, StreamInfo};
use std::alloc::Global;

/// What an output does with the packets of a stream.
#[derive(Drop)]
pub enum Route {
    /// It takes none of them.
    Skip,
    /// It takes them as they are.
    Whole,
    /// It takes what the filters leave of them.
    Through(Chain),
}

/// What an output takes of the two streams, by their numbers, and whether the run ends where it fails.
#[derive(Drop)]
pub struct Choice {
    pub abort: bool,
    pub first: Route,
    pub second: Route,
}

fn takes_kind(format: Format, kind: Kind) -> bool
    ensures { result ≡ kind_is_taken format kind }
{
    match format {
        Format::Flv | Format::Mpegts => true,
        Format::Adts => kind == Kind::Audio,
        Format::Segment => false,
    }
}

/// The format of the files that an output writes.
pub fn file_format(format: Format, seg: &Option<SegOptions>) -> Format
    ensures { result ≡ format_of_files format seg.now }
{
    match format {
        Format::Segment => match seg {
            Some(options) => options.inner,
            None => Format::Segment,
        },
        Format::Flv | Format::Adts | Format::Mpegts => format,
    }
}

fn is_selected(specs: &[Spec], number: u32, kind: Kind) -> bool
    ensures { result ≡ list_any (λ spec. spec_selects spec number kind) specs.now }
{
    specs.iter().any(|spec| selects(*spec, number, kind))
}

fn is_filtered(chains: &[(Spec, Chain)], number: u32, kind: Kind) -> bool
    ensures { result ≡ list_any (λ chain. spec_selects chain.0 number kind) chains.now }
{
    chains.iter().any(|chain| selects(chain.0, number, kind))
}

// Whether an output takes the stream of that number and kind.
fn is_taken(plan: &SlavePlan, number: u32, kind: Kind) -> bool
    ensures { result ≡ is_stream_taken (view plan.now) number kind }
{
    is_selected(plan.select.as_slice(), number, kind)
        && takes_kind(file_format(plan.format, &plan.seg), kind)
}

/// The streams that an output takes, and the script.
pub fn chosen_streams(
    alloc: Global,
    plan: &SlavePlan,
    infos: &[StreamInfo],
    script: Option<&Bytes>,
) -> Result<MuxStreams, NoMemory>
    requires few { length infos.now ≤ 2 }
    ensures streams { IfOk result (λ chosen. chosen.streams.items ≡ streams_chosen (view plan.now) infos.now) }
    ensures script { IfOk result (λ chosen. chosen.script ≡ option_map (λ body. body.now) script.entry) }
{
    let streams = streams_of(alloc, plan, infos)?;
    let script = match script {
        Some(script) => Some(copy_of(script)?),
        None => None,
    };
    Ok(MuxStreams {
        streams: Items::from_vec(streams),
        script,
    })
}

fn copy_of(bytes: &Bytes) -> Result<Bytes, NoMemory>
    ensures { IfOk result (λ copy. copy ≡ bytes.now) }
{
    match bytes.clone() {
        Ok(copy) => Ok(copy),
        Err(_) => Err(NoMemory),
    }
}

fn streams_of(
    alloc: Global,
    plan: &SlavePlan,
    infos: &[StreamInfo],
) -> Result<Vec<MuxStream>, NoMemory>
    requires few { length infos.now ≤ 2 }
    ensures { IfOk result (λ streams. streams.items ≡ streams_chosen (view plan.now) infos.now) }
{
    let mut streams = Vec::new(alloc);
    for (number, info) in infos.iter().enumerate() {
        let number = number as u32;
        if is_taken(plan, number, info.kind) {
            let info = info.copy()?;
            match streams.push(MuxStream {
                stream: number,
                info,
            }) {
                Ok(()) => {}
                Err(_) => return Err(NoMemory),
            }
        }
    }
    Ok(streams)
}

// What an output does with the packets of the stream of that number and kind.
fn route_of(plan: &SlavePlan, number: u32, kind: Kind) -> Route
    requires short { are_short (view plan.now).chains ≡ true }
    requires number { number < 2 }
    ensures { (streams : List Stream) → kind_in streams number ≡ (if is_stream_taken (view plan.now) number kind then Some kind else None)
        → IsRoute streams (view plan.now).chains number result }
{
    if !is_taken(plan, number, kind) {
        return Route::Skip;
    }
    let chains = plan.chains.as_slice();
    if !is_filtered(chains, number, kind) {
        return Route::Whole;
    }
    match joined_chain(chains, number, kind) {
        Some(chain) => Route::Through(chain),
        None => unreachable!(),
    }
}

fn route_at(plan: &SlavePlan, infos: &[StreamInfo], number: u32) -> Route
    requires short { are_short (view plan.now).chains ≡ true }
    requires infos { AreInfos infos.now }
    requires number { number < 2 }
    ensures { IsRoute (streams_chosen (view plan.now) infos.now) (view plan.now).chains number result }
{
    match infos.get(number as usize) {
        Some(info) => route_of(plan, number, info.kind),
        None => Route::Skip,
    }
}

impl Choice {
    /// What an output of that plan does with the packets of these streams.
    pub fn of(plan: &SlavePlan, infos: &[StreamInfo]) -> Choice
        requires short { are_short (view plan.now).chains ≡ true }
        requires infos { AreInfos infos.now }
        ensures abort { result.abort ≡ (view plan.now).abort }
        ensures first { IsRoute (streams_chosen (view plan.now) infos.now) (view plan.now).chains 0 result.first }
        ensures second { IsRoute (streams_chosen (view plan.now) infos.now) (view plan.now).chains 1 result.second }
    {
        Choice {
            abort: plan.abort,
            first: route_at(plan, infos, 0),
            second: route_at(plan, infos, 1),
        }
    }
}
