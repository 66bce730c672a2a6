// The next piece of an input.
ghost use Rattle.std.specs.Prelude.{◌≡◌, ◌<◌, ◌≤◌, true, false, length, IsErrOf, List, ℕ};
ghost use Rattle.flv_tags.specs.declared.tag.Tag.{Tag};
ghost use Rattle.remux.specs.Took.{Takes, StaysSound};

use crate::demux::Demux;
use rmx_edge::Inputs;

/// What came of a turn.
#[derive(Clone, Copy, Debug, PartialEq, Eq)]
pub enum Taken {
    Bytes(usize),
    End,
    Limit,
}

/// Why nothing came.
#[derive(Clone, Copy, Debug, PartialEq, Eq)]
pub enum TakeFault {
    Failed,
    NoMemory,
}

/// Takes at most `limit` bytes and feeds them, or tells the end.
pub fn take_piece<I: Inputs, D: Demux>(
    inputs: &mut I,
    demux: &mut D,
    buf: &mut [u8],
    limit: u64,
) -> Result<Taken, TakeFault>
    requires readable { (I.state inputs.old).readable ≡ true }
    requires room { 0 < length buf.old }
    requires small { length buf.old ≤ 65536 }
    requires unended { D.ended demux.old ≡ false }
    ensures takes { Takes result limit (I.state inputs.old) (I.state inputs.new) (D.ended demux.new) (D.has demux.old) (D.has demux.new) }
    ensures known { (b : List ℕ) (done : List Tag) → D.has demux.old b done → D.known demux.new ≡ D.known demux.old }
    ensures count { (I.state inputs.old).faults ≤ (I.state inputs.new).faults }
    ensures sound { StaysSound (I.state inputs.old) (I.state inputs.new) }
    ensures some { (result ≡ Ok (Taken.Bytes 0) → ⊥) }
    ensures whole { IsErrOf result TakeFault.Failed → (I.state inputs.old).sound_now ≡ false }
{
    let room = if limit < 65536 {
        buf.len().min(limit as usize)
    } else {
        buf.len()
    };
    if room == 0 {
        return Ok(Taken::Limit);
    }
    match inputs.read(&mut buf[..room]) {
        Ok(0) => {
            demux.finish();
            Ok(Taken::End)
        }
        Ok(count) => match demux.feed(&buf[..count]) {
            Ok(()) => Ok(Taken::Bytes(count)),
            Err(_) => Err(TakeFault::NoMemory),
        },
        Err(_) => Err(TakeFault::Failed),
    }
}
