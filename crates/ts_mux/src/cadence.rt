// When the tables come again.
ghost use Rattle.std.specs.Prelude.{◌≡◌};
ghost use Rattle.std.specs.Option.{ForSome};
ghost use Rattle.ts_mux.specs.File.{is_key_video as is_key_video_of, renews as renews_of, tables_due as tables_due_of, last_after as last_after_of};
ghost use Rattle.ts_mux.specs.Timed.{packet_of};
ghost use Rattle.ts_mux.specs.Times.{IsTime};

use crate::timed::Timed;
use rmx_media::{Config, Packet};

fn is_key_video(packet: &Packet) -> bool
    ensures { result ≡ is_key_video_of packet.now.config packet.now.key }
{
    match packet.config {
        Config::Avc(_) => packet.key,
        Config::Aac(_) => false,
    }
}

// Whether tables come before a packet, where they were last written at this dts.
fn renews(last: i64, changed: bool, timed: &Timed) -> bool
    requires last { IsTime last }
    requires dts { IsTime timed.now.dts }
    ensures { result ≡ renews_of last changed (packet_of timed.now) }
{
    is_key_video(timed.packet) || timed.dts - last >= 100 || changed
}

/// Whether tables come before a packet. Before a file's first packet they never do.
pub(crate) fn tables_due(last: Option<i64>, changed: bool, timed: &Timed) -> bool
    requires last { ForSome last IsTime }
    requires dts { IsTime timed.now.dts }
    ensures { result ≡ tables_due_of last changed (packet_of timed.now) }
{
    match last {
        Some(last) => renews(last, changed, timed),
        None => false,
    }
}

/// The dts of the packet at which tables were last written, after this one.
pub(crate) fn last_after(last: Option<i64>, changed: bool, timed: &Timed) -> Option<i64>
    requires last { ForSome last IsTime }
    requires dts { IsTime timed.now.dts }
    ensures last { result ≡ last_after_of last changed (packet_of timed.now) }
    ensures near { ForSome result IsTime }
{
    match last {
        Some(last) if !renews(last, changed, timed) => Some(last),
        _ => Some(timed.dts),
    }
}
