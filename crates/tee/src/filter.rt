// What an output leaves of a packet.
ghost use Rattle.std.specs.Prelude.{◌≡◌, ◌<◌, List, IfOk};
ghost use Rattle.bsf_chain.specs.declared.filter.Filter.{Filter};
ghost use Rattle.options.specs.declared.select.Spec.{Spec};
ghost use Rattle.rmx_media.specs.Config.{kind_of};
ghost use Rattle.rmx_media.specs.Fits.{Fits};
ghost use Rattle.rmx_media.specs.Streams.{AreInfos, IsSound};
ghost use Rattle.rmx_media.specs.declared.packet.Format.TheVariants.{Flv};
ghost use Rattle.rmx_media.specs.declared.streams.MuxStream.{MuxStream};
ghost use Rattle.rmx_media.specs.declared.streams.MuxStreams.{MuxStreams};
ghost use Rattle.rmx_media.specs.declared.streams.StreamInfo.{StreamInfo as Info};
ghost use Rattle.tee.specs.Route.{IsRoute, IsLeft, IsPlaced, IsFiltered, filters_in, is_through as through, is_whole as whole, passes_in, route_in, written};
ghost use Rattle.tee.specs.Seat.{Seat, IsInput};

use crate::choice::{Choice, Route};
use rmx_media::{NoMemory, Packet, StreamInfo};
use std::alloc::Global;

/// What an output writes of a packet.
#[derive(Drop)]
pub enum Filtered {
    /// The packet itself.
    Same,
    /// What the filters left of it.
    Other(Packet),
    /// Nothing.
    Dropped,
}

impl Default for Filtered {
    fn default() -> Filtered {
        Filtered::Dropped
    }
}

impl Route {
    fn is_through(&self) -> bool
        ensures { result ≡ through self.now }
    {
        match self {
            Route::Through(_) => true,
            Route::Skip | Route::Whole => false,
        }
    }

    fn is_whole(&self) -> bool
        ensures { result ≡ whole self.now }
    {
        match self {
            Route::Whole => true,
            Route::Skip | Route::Through(_) => false,
        }
    }

    // What is written of a packet of a stream.
    fn filter(&self, alloc: Global, info: &StreamInfo, p: &Packet) -> Result<Filtered, NoMemory>
        requires info { IsSound info.now }
        requires kind { kind_of p.now.config ≡ info.now.kind }
        requires fits { (all : MuxStreams) × Fits Flv all p.now }
        ensures { (streams : List MuxStream) (chains : List (Spec × List Filter)) (all : MuxStreams) → IsRoute streams chains p.now.stream self.now
            → Fits Flv all p.now → IfOk result (λ filtered. IsLeft streams chains all p.now (written p.now filtered)) }
    {
        match self {
            Route::Skip => Ok(Filtered::Dropped),
            Route::Whole => Ok(Filtered::Same),
            Route::Through(chain) => match chain.apply(alloc, info, p) {
                Ok(Some(packet)) => Ok(Filtered::Other(packet)),
                Ok(None) => Ok(Filtered::Dropped),
                Err(refused) => Err(refused),
            },
        }
    }
}

impl Choice {
    // What is done with the packets of the stream of that number.
    fn route(&self, stream: u32) -> &Route
        ensures { result.now ≡ route_in self.now stream }
    {
        if stream == 0 {
            &self.first
        } else {
            &self.second
        }
    }

    /// Whether filters stand for the stream of that number.
    pub fn filters(&self, stream: u32) -> bool
        ensures { result ≡ filters_in self.now stream }
    {
        self.route(stream).is_through()
    }

    /// Whether packets of the stream of that number are written as they are.
    pub fn passes(&self, stream: u32) -> bool
        ensures { result ≡ passes_in self.now stream }
    {
        self.route(stream).is_whole()
    }

    /// What is written of a packet of a stream.
    pub fn filter(&self, alloc: Global, info: &StreamInfo, p: &Packet) -> Result<Filtered, NoMemory>
        requires info { IsSound info.now }
        requires kind { kind_of p.now.config ≡ info.now.kind }
        requires fits { (all : MuxStreams) × Fits Flv all p.now }
        requires number { p.now.stream < 2 }
        ensures { (infos : List Info) (seat : Seat) → AreInfos infos → IsPlaced infos seat self.now → IsInput infos p.now
            → IfOk result (λ filtered. IsFiltered seat p.now (written p.now filtered)) }
    {
        if p.stream == 0 {
            self.first.filter(alloc, info, p)
        } else {
            self.second.filter(alloc, info, p)
        }
    }
}
