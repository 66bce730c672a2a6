//! Packets, configurations and the small types that they are made of.
#![tactic(auto)]

pub mod aac;
pub mod avc;
pub mod config;
pub mod items;
pub mod memory;
pub mod packet;
pub mod sets;
pub mod streams;
#[cfg(test)]
mod tests;
pub mod text;
pub mod time;

pub use aac::{AacConfig, read_aac_config};
pub use avc::{AvcConfig, read_avc_config};
pub use config::{Config, ConfigFault, same_config};
pub use items::Items;
pub use memory::NoMemory;
pub use packet::{Form, Format, Packet, is_restart};
pub use sets::Sets;
pub use streams::{Kind, MuxStream, MuxStreams, StreamInfo};
pub use text::Text;
pub use time::{Base, compare, rescale, seconds_text};
