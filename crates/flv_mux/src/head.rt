// The head of a file.
ghost use Rattle.std.specs.Prelude.{◌≡◌, ◌<◌, ◌^◌, true, length, flat_map, OnOk};
ghost use Rattle.std.specs.List.{All};
ghost use Rattle.std.specs.Option.{ForSome};
ghost use Rattle.rmx_edge.specs.Pieces.{writes};
ghost use Rattle.rmx_edge.specs.Run.{Runs};
ghost use Rattle.flv_mux.specs.Flv.{head_pieces, config_pieces, config_size, script_pieces, stream_pieces};

use crate::kinds::flags;
use crate::tags::{AUDIO_TAG, SCRIPT_TAG, VIDEO_TAG, write_tag};
use bytes::Bytes;
use flv_tags::file_head;
use rmx_edge::{Shelf, ShelfFault, write_piece};
use rmx_media::{Config, MuxStream, MuxStreams};

/// Writes what stands in a file in front of the packets.
pub fn write_head<S: Shelf>(shelf: &mut S, m: &MuxStreams) -> Result<(), ShelfFault>
    requires begun { (S.state shelf.old).writing ≡ true }
    requires number { (0 < length m.now.streams.items) × (length m.now.streams.items < 3) }
    requires small { All (λ s. config_size s.info.config < 2 ^ 24) m.now.streams.items }
    requires script { ForSome m.now.script (λ body. length body < 2 ^ 24) }
    ensures run { Runs (writes (head_pieces m.now)) result (S.state shelf.old) (S.state shelf.new) }
    ensures open { OnOk result ((S.state shelf.new).writing ≡ true) }
{
    let streams = m.streams.as_slice();
    match write_piece(shelf, &file_head(flags(streams))) {
        Ok(()) => {}
        Err(fault) => return Err(fault),
    }
    match write_script(shelf, &m.script) {
        Ok(()) => write_configs(shelf, streams),
        Err(fault) => Err(fault),
    }
}

fn write_script<S: Shelf>(shelf: &mut S, script: &Option<Bytes>) -> Result<(), ShelfFault>
    requires begun { (S.state shelf.old).writing ≡ true }
    requires size { ForSome script.now (λ body. length body < 2 ^ 24) }
    ensures run { Runs (writes (script_pieces script.now)) result (S.state shelf.old) (S.state shelf.new) }
    ensures open { OnOk result ((S.state shelf.new).writing ≡ true) }
{
    match script {
        Some(script) => write_tag(shelf, SCRIPT_TAG, 0, &[], script.as_slice()),
        None => Ok(()),
    }
}

// The configurations of the streams, in their order.
fn write_configs<S: Shelf>(shelf: &mut S, streams: &[MuxStream]) -> Result<(), ShelfFault>
    requires begun { (S.state shelf.old).writing ≡ true }
    requires number { (0 < length streams.now) × (length streams.now < 3) }
    requires small { All (λ s. config_size s.info.config < 2 ^ 24) streams.now }
    ensures run { Runs (writes (flat_map stream_pieces streams.now)) result (S.state shelf.old) (S.state shelf.new) }
    ensures open { OnOk result ((S.state shelf.new).writing ≡ true) }
{
    match streams {
        [one] => write_config(shelf, 0, &one.info.config),
        [video, audio] => match write_config(shelf, 0, &video.info.config) {
            Ok(()) => write_config(shelf, 0, &audio.info.config),
            Err(fault) => Err(fault),
        },
        _ => unreachable!(),
    }
}

/// Writes the tag that says a configuration.
pub fn write_config<S: Shelf>(shelf: &mut S, time: i64, config: &Config) -> Result<(), ShelfFault>
    requires begun { (S.state shelf.old).writing ≡ true }
    requires small { config_size config.now < 2 ^ 24 }
    ensures run { Runs (writes (config_pieces time config.now)) result (S.state shelf.old) (S.state shelf.new) }
    ensures open { OnOk result ((S.state shelf.new).writing ≡ true) }
{
    match config {
        Config::Avc(config) => write_tag(
            shelf,
            VIDEO_TAG,
            time,
            &[23, 0, 0, 0, 0],
            config.raw.as_slice(),
        ),
        Config::Aac(config) => write_tag(shelf, AUDIO_TAG, time, &[175, 0], config.raw.as_slice()),
    }
}
