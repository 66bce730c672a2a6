// The streams of a file, and what was last written of each.
ghost use Rattle.std.specs.Prelude.{◌≡◌, ◌==◌, ◌≢◌, ℕ, IsSome, if◌then◌else◌};
ghost use Rattle.rmx_media.specs.Streams.{AreStreams, kind_in};

use rmx_media::{MuxStream, Packet};

/// A stream, and the version of the configuration that is in force for it.
#[derive(Clone, Copy, Debug, PartialEq, Eq)]
pub struct Track {
    pub stream: u32,
    pub version: u64,
}

impl Track {
    /// The stream at its first configuration.
    pub fn new(stream: u32) -> Track
        ensures stream { result.stream ≡ stream }
        ensures version { result.version ≡ 0 }
    {
        Track { stream, version: 0 }
    }

    /// The track behind one more packet.
    pub fn past(self, p: &Packet) -> Track
        ensures stream { result.stream ≡ self.stream }
        ensures version { result.version ≡ (if p.now.stream == self.stream then p.now.version else self.version) }
    {
        if p.stream == self.stream {
            return Track {
                stream: self.stream,
                version: p.version,
            };
        }
        self
    }
}

/// The tracks of the streams; one stream alone is both.
pub fn tracks(streams: &[MuxStream]) -> (Track, Track)
    requires { AreStreams streams.now }
    ensures all { (n : ℕ) → IsSome (kind_in streams.now n) → n ≢ result.0.stream → n ≡ result.1.stream }
    ensures first { result.0.version ≡ 0 }
    ensures second { result.1.version ≡ 0 }
{
    match streams {
        [one] => (Track::new(one.stream), Track::new(one.stream)),
        [video, audio] => (Track::new(video.stream), Track::new(audio.stream)),
        _ => unreachable!(),
    }
}
