// The tables of a file.
ghost use Rattle.std.specs.Prelude.{◌≡◌, ◌+◌, ◌<◌, ◌%◌, true, OnOk};
ghost use Rattle.rmx_media.specs.Streams.{AreStreams};
ghost use Rattle.rmx_edge.specs.Run.{Runs};
ghost use Rattle.ts_mux.specs.File.{stream_type_of};
ghost use Rattle.ts_mux.specs.Tables.{AreTables, calls_of, with_counter};

use rmx_edge::{Shelf, ShelfFault};
use rmx_media::{Kind, MuxStream};
use ts_psi::{TableStream, pat_cell, pmt_cell};

/// The two table cells, each with counter 0, and the counter of the next ones.
#[derive(Drop)]
pub(crate) struct Tables {
    pub(crate) programs: [u8; 188],
    pub(crate) program_map: [u8; 188],
    pub(crate) counter: u8,
}

// A stream as the program's table tells it.
fn table_stream(pid: u16, stream: &MuxStream) -> TableStream
    ensures { result ≡ record { stream_type = stream_type_of stream.now.info.kind; pid = pid } }
{
    TableStream {
        stream_type: match stream.info.kind {
            Kind::Video => 0x1B,
            Kind::Audio => 0x0F,
        },
        pid,
    }
}

// The cell with this counter.
fn numbered(cell: &[u8; 188], counter: u8) -> [u8; 188]
    requires { counter < 16 }
    ensures { result ≡ with_counter cell.now counter }
{
    let mut cell = *cell;
    cell[3] = 0x10 + counter;
    cell
}

impl Tables {
    /// The tables of these streams.
    pub(crate) fn new(streams: &[MuxStream]) -> Tables
        requires { AreStreams streams.now }
        ensures tables { AreTables streams.now result }
        ensures counter { result.counter ≡ 0 }
    {
        let program_map = match streams {
            [one] => pmt_cell(&[table_stream(0x100, one)], 0),
            [video, audio] => pmt_cell(
                &[table_stream(0x100, video), table_stream(0x101, audio)],
                0,
            ),
            _ => unreachable!(),
        };
        Tables {
            programs: pat_cell(0),
            program_map,
            counter: 0,
        }
    }

    /// Writes both. The counter passes them.
    pub(crate) fn write<S: Shelf>(&mut self, shelf: &mut S) -> Result<(), ShelfFault>
        requires begun { (S.state shelf.old).writing ≡ true }
        requires counter { self.old.counter < 16 }
        ensures run { Runs (calls_of self.old self.old.counter) result (S.state shelf.old) (S.state shelf.new) }
        ensures open { OnOk result ((S.state shelf.new).writing ≡ true) }
        ensures programs { self.new.programs ≡ self.old.programs }
        ensures program_map { self.new.program_map ≡ self.old.program_map }
        ensures counter { self.new.counter < 16 }
        ensures counted { OnOk result (self.new.counter ≡ (self.old.counter + 1) % 16) }
    {
        let counter = self.counter;
        self.counter = (counter + 1) % 16;
        match shelf.write(&numbered(&self.programs, counter)) {
            Ok(()) => {}
            Err(fault) => return Err(fault),
        }
        shelf.write(&numbered(&self.program_map, counter))
    }
}
