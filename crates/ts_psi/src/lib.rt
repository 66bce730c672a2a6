//! The tables of an MPEG transport stream (ISO/IEC 13818-1): one program of one or two streams, each table in one cell
//! of 188 bytes, and the checksum of their sections.
#![tactic(auto)]

pub mod cell;
mod checksum;
mod tables;

pub use checksum::crc;
pub use tables::{TableStream, pat_cell, pmt_cell};
