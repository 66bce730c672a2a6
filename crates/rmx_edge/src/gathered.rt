// Reads and writes of the system; writes are gathered, so that small pieces cost few calls.
ghost use Rattle.std.specs.Prelude.{◌≡◌, ◌≤◌, ◌<◌, ◌+◌, ◌↔◌, [], true, length, OnOk};
ghost use Rattle.std.specs.Io.{ReadsAtMost};
ghost use Rattle.std.specs.Io.KnownBytes.{Appends, ReadConsumes};
ghost use Rattle.rmx_edge.specs.Gathered.{Gathers};

use std::io;
use std::io::{ErrorKind, Read, Write};

const ROOM: usize = 65536;

/// Writes what is pending, and leaves nothing pending where that was written.
pub fn write_pending<W: Write>(file: &mut W, pending: &mut Vec<u8>) -> io::Result<()>
    ensures told { OnOk result (Appends (W.contents file.old) (W.contents file.new) pending.old.items) }
    ensures none { OnOk result (pending.new.items ≡ []) }
    ensures bound { length pending.new.items ≤ length pending.old.items }
{
    match file.write_all(pending) {
        Ok(()) => {
            pending.clear();
            Ok(())
        }
        Err(error) => Err(error),
    }
}

/// Keeps the bytes pending where they fit 64 KiB with what is pending, and else writes them behind it.
pub fn write_later<W: Write>(file: &mut W, pending: &mut Vec<u8>, bytes: &[u8]) -> io::Result<()>
    requires { length pending.old.items < 65536 }
    ensures told { OnOk result (Gathers (W.contents file.old) pending.old.items (W.contents file.new) pending.new.items bytes.now) }
    ensures bound { length pending.new.items < 65536 }
{
    if fits(pending.len(), bytes.len()) && pending.extend_from_slice(bytes).is_ok() {
        return Ok(());
    }
    match write_pending(file, pending) {
        Ok(()) => write_behind(file, pending, bytes),
        Err(error) => Err(error),
    }
}

// Keeps the bytes pending where there is room for them, and else writes them. Nothing is pending.
fn write_behind<W: Write>(file: &mut W, pending: &mut Vec<u8>, bytes: &[u8]) -> io::Result<()>
    requires { pending.old.items ≡ [] }
    ensures told { OnOk result (Gathers (W.contents file.old) [] (W.contents file.new) pending.new.items bytes.now) }
    ensures bound { length pending.new.items < 65536 }
{
    if fits(0, bytes.len()) && pending.extend_from_slice(bytes).is_ok() {
        return Ok(());
    }
    file.write_all(bytes)
}

// Whether both together are less than 64 KiB.
fn fits(pending: usize, more: usize) -> bool
    ensures { (result ≡ true) ↔ (pending + more < 65536) }
{
    pending < ROOM && more < ROOM - pending
}

/// Reads once, again where a signal came in between.
pub fn read_some<F: Read>(file: &mut F, buf: &mut [u8]) -> io::Result<usize>
    ensures bound { ReadsAtMost result buf.new }
    ensures told { ReadConsumes (F.remaining file.old) (F.remaining file.new) result buf.new }
{
    for _ in 0..u64::MAX {
        match file.read(buf) {
            Err(error) if error.kind() == ErrorKind::Interrupted => {}
            answer => return answer,
        }
    }
    Err(io::Error::from(ErrorKind::Interrupted))
}
