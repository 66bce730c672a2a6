// The streams of a program.
ghost use Rattle.std.specs.Prelude.{◌≡◌};
ghost use Rattle.ts_mux.specs.File.{is_first as is_first_of, video_of as video_of_list};

use rmx_media::{Kind, MuxStream};

/// Whether the stream of that number is the first one, whose cells carry the clock.
pub(crate) fn is_first(streams: &[MuxStream], number: u32) -> bool
    ensures { result ≡ is_first_of streams.now number }
{
    match streams {
        [first, ..] => number == first.stream,
        [] => false,
    }
}

/// The number of the video stream.
pub(crate) fn video_of(streams: &[MuxStream]) -> Option<u32>
    ensures { result ≡ video_of_list streams.now }
{
    match streams {
        [first, ..] => match first.info.kind {
            Kind::Video => Some(first.stream),
            Kind::Audio => None,
        },
        [] => None,
    }
}
