// What filters make of a packet.
ghost use Rattle.std.specs.Prelude.{◌≡◌, ◌≤◌, true, false, Some, None, if◌then◌else◌, length, ◌++◌, IfOk, IfSome};
ghost use Rattle.std.specs.List.{list_any};
ghost use Rattle.bsf_chain.specs.Apply.{acts_on_video as on_video, acts_on_audio as on_audio, laid, filtered, printed, form_of as form_by, in_form as in_the_form, video_result, result_of, IsKept};
ghost use Rattle.bsf_chain.specs.Chain.{are_keepers};
ghost use Rattle.rmx_media.specs.declared.streams.MuxStreams.{MuxStreams};
ghost use Rattle.rmx_media.specs.Adts.{adts_frame};
ghost use Rattle.rmx_media.specs.Avc.{sets_of};
ghost use Rattle.rmx_media.specs.Config.{IsReadAvc, IsAsRead};
ghost use Rattle.rmx_media.specs.Fits.{IsPayload, Fits};
ghost use Rattle.rmx_media.specs.Units.{is_valid};
ghost use Rattle.avc_units.specs.UnitList.{AreShort};

use crate::Filter;
use crate::filter::{acts_on_audio, acts_on_video};
use aac_adts::adts_head;
use avc_units::UnitList;
use bytes::Bytes;
use rmx_media::{AacConfig, AvcConfig, Config, Form, Format, NoMemory, Packet};
use std::alloc::{AllocError, Global};

// What the filters leave of a native packet with that payload, or None where no unit is left.
pub(crate) fn applied(
    alloc: Global,
    filters: &[Filter],
    p: &Packet,
    payload: &[u8],
) -> Result<Option<Packet>, NoMemory>
    requires few { length filters.now ≤ 16 }
    requires form { p.now.form ≡ Form.Native }
    requires config { IsAsRead p.now.config }
    requires payload { IsPayload p.now.config Form.Native p.now.payload }
    requires same { payload.now ≡ p.now.payload }
    ensures value { IfOk result (λ packet. packet ≡ result_of filters.now p.now) }
    ensures native { are_keepers filters.now ≡ true → IfOk result (IsKept p.now) }
    ensures fits { (s : MuxStreams) → Fits Format.Flv s p.now → IfOk result (λ packet. IfSome packet (Fits Format.Mpegts s)) }
{
    by_kind(alloc, filters, p, payload)
}

#[tactic(auto, unfolding(crate::specs::Apply::result_of))]
fn by_kind(
    alloc: Global,
    filters: &[Filter],
    p: &Packet,
    payload: &[u8],
) -> Result<Option<Packet>, NoMemory>
    requires config { IsAsRead p.now.config }
    requires payload { IsPayload p.now.config Form.Native p.now.payload }
    requires same { payload.now ≡ p.now.payload }
    ensures { IfOk result (λ packet. packet ≡ result_of filters.now p.now) }
{
    match &p.config {
        Config::Avc(config) => {
            if some_on_video(filters) {
                return video(alloc, filters, config, p, payload);
            }
            itself(p)
        }
        Config::Aac(config) => {
            if some_on_audio(filters) {
                return audio(alloc, config, p, payload);
            }
            itself(p)
        }
    }
}

fn some_on_video(filters: &[Filter]) -> bool
    ensures { result ≡ list_any on_video filters.now }
{
    filters.iter().any(|filter| acts_on_video(*filter))
}

fn some_on_audio(filters: &[Filter]) -> bool
    ensures { result ≡ list_any on_audio filters.now }
{
    filters.iter().any(|filter| acts_on_audio(*filter))
}

fn itself(p: &Packet) -> Result<Option<Packet>, NoMemory>
    ensures { IfOk result (λ packet. packet ≡ Some p.now) }
{
    match p.copy() {
        Ok(packet) => Ok(Some(packet)),
        Err(_) => Err(NoMemory),
    }
}

// The packet in another form, which shares its configuration.
fn in_form(p: &Packet, form: Form, payload: Bytes) -> Result<Option<Packet>, NoMemory>
    ensures { IfOk result (λ packet. packet ≡ Some (in_the_form p.now form payload)) }
{
    match p.config.copy() {
        Ok(config) => Ok(Some(Packet {
            stream: p.stream,
            dts: p.dts,
            pts: p.pts,
            key: p.key,
            form,
            payload,
            config,
            version: p.version,
        })),
        Err(_) => Err(NoMemory),
    }
}

fn video(
    alloc: Global,
    filters: &[Filter],
    config: &AvcConfig,
    p: &Packet,
    payload: &[u8],
) -> Result<Option<Packet>, NoMemory>
    requires config { IsReadAvc config.now }
    requires valid { is_valid config.now.length_size p.now.payload ≡ true }
    requires same { payload.now ≡ p.now.payload }
    ensures { IfOk result (λ packet. packet ≡ video_result filters.now p.now config.now) }
{
    let mut list = UnitList::read(alloc, payload, config)?;
    let mut started = false;
    for filter in filters {
        if !pass(&mut list, &mut started, *filter, config, p.key)? {
            return Ok(None);
        }
    }
    let printed = print(&list, started, config.length_size)?;
    in_form(p, form_of(started), printed)
}

// Changes the units, and whether they will stand behind start codes. Answers whether a unit is left.
fn pass<'a>(
    list: &mut UnitList<'a>,
    started: &mut bool,
    filter: Filter,
    config: &'a AvcConfig,
    key: bool,
) -> Result<bool, NoMemory>
    requires { IsReadAvc config.now }
    ensures { IfOk result (λ left. (if left then Some (laid list.new started.new) else None)
        ≡ filtered (sets_of config.now) key filter (laid list.old started.old)) }
{
    match filter {
        Filter::ToAnnexB => {
            if *started {
                return Ok(true);
            }
            list.sets_before_idr(config)?;
            *started = true;
            Ok(true)
        }
        Filter::FilterUnits { keep } => {
            list.keep(keep);
            Ok(!list.is_empty())
        }
        Filter::DumpExtra { all } => {
            *started = true;
            if !key && !all {
                return Ok(true);
            }
            list.sets_in_front(config)?;
            Ok(true)
        }
        Filter::Null | Filter::AacAdts => Ok(true),
    }
}

fn form_of(started: bool) -> Form
    ensures { result ≡ form_by started }
{
    if started { Form::AnnexB } else { Form::Native }
}

fn print(list: &UnitList<'_>, started: bool, length_size: u8) -> Result<Bytes, NoMemory>
    requires low { 1 ≤ length_size }
    requires high { length_size ≤ 4 }
    requires short { started ≡ false → AreShort length_size list.now }
    ensures { IfOk result (λ bytes. bytes ≡ printed length_size (laid list.now started)) }
{
    if started {
        list.annexb()
    } else {
        list.native(length_size)
    }
}

// AAC in an ADTS frame.
fn audio(
    alloc: Global,
    config: &AacConfig,
    p: &Packet,
    payload: &[u8],
) -> Result<Option<Packet>, NoMemory>
    requires small { length p.now.payload ≤ 8184 }
    requires same { payload.now ≡ p.now.payload }
    ensures { IfOk result (λ packet. packet ≡ Some (in_the_form p.now Form.Adts (adts_frame config.now p.now.payload))) }
{
    let framed = frame(alloc, config, payload)?;
    in_form(p, Form::Adts, framed)
}

fn frame(alloc: Global, config: &AacConfig, body: &[u8]) -> Result<Bytes, NoMemory>
    requires { length body.now ≤ 8184 }
    ensures { IfOk result (λ bytes. bytes ≡ adts_frame config.now body.now) }
{
    let head = adts_head(config, body.len() as u32);
    match joined(alloc, &head, body) {
        Ok(bytes) => match Bytes::from_vec(bytes) {
            Ok(bytes) => Ok(bytes),
            Err(_) => Err(NoMemory),
        },
        Err(_) => Err(NoMemory),
    }
}

fn joined(alloc: Global, head: &[u8], body: &[u8]) -> Result<Vec<u8>, AllocError>
    ensures { IfOk result (λ bytes. bytes.items ≡ head.now ++ body.now) }
{
    let mut bytes = Vec::with_capacity(alloc, head.len().saturating_add(body.len()))?;
    bytes.extend_from_slice(head)?;
    bytes.extend_from_slice(body)?;
    Ok(bytes)
}
