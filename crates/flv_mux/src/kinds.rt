// Which kinds of streams a file has.
ghost use Rattle.std.specs.Prelude.{◌≡◌};
ghost use Rattle.rmx_media.specs.Config.{kind_of};
ghost use Rattle.flv_mux.specs.Flv.{has_video as has_video_of, has_audio as has_audio_of, flags_of, is_video as is_video_kind};

use rmx_media::{Config, Kind, MuxStream};

fn is_video(kind: Kind) -> bool
    ensures { result ≡ is_video_kind kind }
{
    match kind {
        Kind::Video => true,
        Kind::Audio => false,
    }
}

/// Whether a configuration is one of video.
pub fn is_avc(config: &Config) -> bool
    ensures { result ≡ is_video_kind (kind_of config.now) }
{
    match config {
        Config::Avc(_) => true,
        Config::Aac(_) => false,
    }
}

/// Whether there is a video stream.
pub fn has_video(streams: &[MuxStream]) -> bool
    ensures { result ≡ has_video_of streams.now }
{
    streams.iter().any(|s| is_video(s.info.kind))
}

fn has_audio(streams: &[MuxStream]) -> bool
    ensures { result ≡ has_audio_of streams.now }
{
    streams.iter().any(|s| !is_video(s.info.kind))
}

/// The flags in the head of a file of these streams.
pub fn flags(streams: &[MuxStream]) -> u8
    ensures { result ≡ flags_of streams.now }
{
    let audio = if has_audio(streams) { 4 } else { 0 };
    let video = if has_video(streams) { 1 } else { 0 };
    audio + video
}
