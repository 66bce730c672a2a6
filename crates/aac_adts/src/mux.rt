// Files of ADTS frames.
ghost use Rattle.std.specs.Prelude.{◌≡◌};

use crate::adts_head;
use rmx_edge::{Shelf, ShelfFault, write_piece, write_two};
use rmx_media::{Config, Form, MuxStreams, Packet};

/// A muxer for ADTS: the packets of one audio stream, each as a frame. It takes no memory.
#[derive(Drop)]
pub struct AdtsMux {
    streams: MuxStreams,
}

#[tactic(auto, using(rmx_edge::proofs::Run::runs_one))]
impl AdtsMux {
    ghost use Rattle.std.specs.Prelude.{true, false, OnOk};
    ghost use Rattle.rmx_edge.specs.Pieces.{EndsInWrite};
    ghost use Rattle.rmx_edge.specs.Run.{Runs};
    ghost use Rattle.rmx_media.specs.declared.packet.Format.TheVariants.{Adts};
    ghost use Rattle.rmx_media.specs.Streams.{CanMux};
    ghost use Rattle.rmx_media.specs.Fits.{FitsLowered};
    ghost use Rattle.aac_adts.specs.Adts.{begin_calls, put_calls, end_calls};
    ghost use Rattle.aac_adts.specs.AdtsMux.{streams_of};

    /// A muxer for these streams.
    pub fn new(streams: MuxStreams) -> AdtsMux
        requires { CanMux streams }
        ensures { streams_of result ≡ streams }
    {
        AdtsMux { streams }
    }

    /// Begins a file of this name. The shelf may not be writing.
    pub fn begin<S: Shelf>(&mut self, name: &str, shelf: &mut S) -> Result<(), ShelfFault>
        requires { (S.state shelf.old).writing ≡ false }
        ensures streams { streams_of self.new ≡ streams_of self.old }
        ensures run { Runs (begin_calls name.now) result (S.state shelf.old) (S.state shelf.new) }
        ensures open { OnOk result ((S.state shelf.new).writing ≡ true) }
    {
        shelf.create(name)
    }

    /// Writes a packet into the file that was begun: the head by the packet's own configuration and the payload, or
    /// the payload alone where it is a frame already.
    pub fn put<S: Shelf>(&mut self, p: &Packet, shelf: &mut S) -> Result<(), ShelfFault>
        requires begun { (S.state shelf.old).writing ≡ true }
        requires fits { FitsLowered Adts (streams_of self.old) p.now }
        ensures streams { streams_of self.new ≡ streams_of self.old }
        ensures run { Runs (put_calls p.now) result (S.state shelf.old) (S.state shelf.new) }
        ensures open { OnOk result ((S.state shelf.new).writing ≡ true) }
        ensures ends { EndsInWrite (put_calls p.now) }
    {
        let payload = p.payload.as_slice();
        if let Config::Aac(config) = &p.config {
            if p.form == Form::Native {
                let head = adts_head(config, payload.len() as u32);
                return write_two(shelf, &head, payload);
            }
        }
        write_piece(shelf, payload)
    }

    /// Ends the file that was begun.
    pub fn end<S: Shelf>(&mut self, shelf: &mut S) -> Result<(), ShelfFault>
        requires { (S.state shelf.old).writing ≡ true }
        ensures streams { streams_of self.new ≡ streams_of self.old }
        ensures run { Runs end_calls result (S.state shelf.old) (S.state shelf.new) }
    {
        shelf.close()
    }
}
