// The end of all outputs.
ghost use Rattle.std.specs.Prelude.{◌≡◌, ◌≤◌, [], List, length};
ghost use Rattle.fifo_core.specs.History.{History};
ghost use Rattle.rmx_media.specs.declared.packet.Packet.{Packet};
ghost use Rattle.rmx_media.specs.declared.streams.StreamInfo.{StreamInfo};
ghost use Rattle.tee.specs.Seat.{Seat};
ghost use Rattle.tee.specs.Sits.{AllEndAt, AllSit};

use crate::output::TeeSlave;
use rmx_edge::Shelf;
use rmx_media::Items;
use slave::SlaveEnd;

/// Ends each output. There is a place for each end.
pub fn end_all<S: Shelf + Drop>(
    slaves: Vec<TeeSlave<S>>,
    mut ends: Items<SlaveEnd<S>>,
) -> Items<SlaveEnd<S>>
    requires sit { (infos : List StreamInfo) × (given : List Packet) × (seats : List Seat) × (histories : List History) × AllSit S.state infos given seats histories slaves.items }
    requires none { ends.items ≡ [] }
    requires room { length slaves.items ≤ ends.spare }
    ensures { (infos : List StreamInfo) (given : List Packet) (seats : List Seat) (histories : List History)
        → AllSit S.state infos given seats histories slaves.items → AllEndAt S.state given seats histories result.items }
{
    for slave in slaves {
        ends.push(slave.finish());
    }
    ends
}
