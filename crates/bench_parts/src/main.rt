//! Runs one part of the product many times, for `bench/parts` to time, and prints how often that part did its work.
#![tactic(auto)]

ghost use Rattle.std.specs.Prelude.{◌<◌, ◌≤◌};

mod chain;
mod lanes;
mod order;
mod others;
mod packets;

use rmx_media::NoMemory;
use std::alloc::Global;
use std::process::ExitCode;
use std::sync::Wait;
use std::thread::Threads;
use std::time::Clock;
use std::{env, io};

const USAGE: &str = "usage: bench_parts order|chain|lane|ring|queue|wait|all SIZE TIMES";

/// What is run.
#[derive(Clone, Copy)]
enum Part {
    /// Pairs of packets through the interleaver, of which SIZE are pending.
    Order,
    /// A packet with a unit of SIZE bytes through an empty chain.
    Chain,
    /// Messages through a lane of SIZE places.
    Lane,
    /// The same through a ring of another crate.
    Ring,
    /// The same through a queue of another crate.
    Queue,
    /// A wait of TIMES milliseconds on an empty lane.
    Wait,
}

fn parts_of(word: &str) -> &'static [Part] {
    match word {
        "order" => &[Part::Order],
        "chain" => &[Part::Chain],
        "lane" => &[Part::Lane],
        "ring" => &[Part::Ring],
        "queue" => &[Part::Queue],
        "wait" => &[Part::Wait],
        "all" => &[
            Part::Order,
            Part::Chain,
            Part::Lane,
            Part::Ring,
            Part::Queue,
            Part::Wait,
        ],
        _ => &[],
    }
}

// A number of places that a lane may have.
fn places(size: u32) -> u32
    ensures { (0 < result) × (result ≤ 256) }
{
    size.clamp(1, 256)
}

fn run<R: Threads + Wait + Clock + Sync>(
    rt: &R,
    alloc: Global,
    part: Part,
    size: u32,
    times: u32,
) -> Result<u32, NoMemory> {
    match part {
        Part::Order => order::pass(alloc, size, times),
        Part::Chain => chain::pass(alloc, size, times),
        Part::Lane => lanes::pass(rt, alloc, places(size), times),
        Part::Ring => others::pass_ring(rt, alloc, places(size), times),
        Part::Queue => others::pass_queue(rt, alloc, places(size), times),
        Part::Wait => lanes::wait(rt, alloc, times),
    }
}

// The parts, the size and how often.
fn asked(words: &[String]) -> Option<(&'static [Part], u32, u32)> {
    match words {
        [word, size, times] => match (size.parse::<u32>(), times.parse::<u32>()) {
            (Ok(size), Ok(times)) => Some((parts_of(word.as_str()), size, times)),
            _ => None,
        },
        _ => None,
    }
}

fn main(rt: HostRuntime) -> io::Result<ExitCode> {
    let alloc = rt.alloc();
    let words: Vec<String> = env::args(&rt)?.skip(1).collect(alloc)?;
    let Some((parts, size, times)) = asked(&words) else {
        rt.eprintln(USAGE)?;
        return Ok(ExitCode::FAILURE);
    };
    for part in parts {
        match run(&rt, alloc, *part, size, times) {
            Ok(count) => println!(rt; "{count}")?,
            Err(NoMemory) => {
                rt.eprintln("no memory")?;
                return Ok(ExitCode::FAILURE);
            }
        }
    }
    Ok(ExitCode::SUCCESS)
}
