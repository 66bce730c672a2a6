// The streams of a session: which is video, and at which files are cut.
ghost use Rattle.std.specs.Prelude.{◌≡◌, ◌==◌, ℕ};
ghost use Rattle.rmx_media.specs.Streams.{AreStreams};
ghost use Rattle.segmenter.specs.Session.{is_reference};
ghost use Rattle.ts_mux.specs.File.{video_of as video_in};

use rmx_media::{Kind, MuxStream};

/// The number of the video stream, if there is one.
pub(crate) fn video_of(streams: &[MuxStream]) -> Option<u32>
    ensures { result ≡ video_in streams.now }
{
    match streams {
        [first, ..] => match first.info.kind {
            Kind::Video => Some(first.stream),
            Kind::Audio => None,
        },
        [] => None,
    }
}

/// The number of the stream at which files are cut: that of video, which comes first where there is one, or else that of audio.
pub(crate) fn reference_of(streams: &[MuxStream]) -> u32
    requires { AreStreams streams.now }
    ensures { (number : ℕ) → is_reference streams.now number ≡ (number == result) }
{
    match streams {
        [first, ..] => first.stream,
        [] => unreachable!(),
    }
}
