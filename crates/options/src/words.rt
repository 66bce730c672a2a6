//! The words of a command line.

ghost use Rattle.std.specs.Prelude.{◌≡◌, ◌+◌, ◌<◌, ◌^◌, map, string_bytes, min, IfOk};
ghost use Rattle.options.specs.Valid.{IsValidPlan};
ghost use Rattle.options.specs.Read.{Gives};
ghost use Rattle.options.specs.Slave.{view as slave_view};
ghost use Rattle.options.specs.Words.{GivesAt, Shows, Answers, at_word, word_option_named, target_named, said_view, is_said, said_by, with_value, begins_with_dash, target_slaves, plan_of, target, generated, words_from, plan, plan_view, nothing_said};

use crate::fault::{ReadError, WordFault, WordKind};
use crate::keyword::format_of;
use crate::name::name_fault;
use crate::number::number_in;
use crate::slave::{SlavePlan, default_slave};
use crate::tee::slaves_of;
use rmx_media::{Format, Items, Text};
use std::alloc::Global;

/// The outputs of a run over an input that is made.
const GENERATED_SLAVES: &str = "[f=flv]g.flv|[f=mpegts]g.ts|[f=segment]g%d.ts";

/// What is read.
#[derive(Drop)]
pub enum Source {
    /// The input of that name.
    Named(Text),
    /// An input of so many video frames, which is made while it is read.
    Generated(u32),
}

/// What is to be run.
#[derive(Drop)]
pub struct Plan {
    pub source: Source,
    /// For how long in stream time, in µs, a stream may hold up the others; 0 is no bound.
    pub delta_us: u64,
    /// How many bytes of the input are read at most.
    pub max_bytes: u64,
    pub slaves: Items<SlavePlan>,
}

/// An option of the command line. Each takes the next word.
#[derive(Clone, Copy, Debug, PartialEq, Eq)]
pub enum WordOption {
    Input,
    Format,
    MaxInterleaveDelta,
    MaxInputBytes,
}

// What -f says of the target: it names several outputs, or one of that format.
#[derive(Clone, Copy, Debug, PartialEq, Eq)]
enum Target {
    Tee,
    One(Format),
}

// Why words were refused, and at which word.
#[derive(Clone, Copy, Debug, PartialEq, Eq)]
enum WordError {
    Memory,
    Fault(WordKind, usize),
}

// What the options have said so far.
#[derive(Clone, Copy)]
struct Said<'a> {
    input: Option<&'a str>,
    target: Option<Target>,
    delta_us: Option<u64>,
    max_bytes: Option<u64>,
}

fn word_option_of(word: &str) -> Option<WordOption>
    ensures { result ≡ word_option_named word.now }
{
    if word == "-i" {
        Some(WordOption::Input)
    } else if word == "-f" {
        Some(WordOption::Format)
    } else if word == "-max_interleave_delta" {
        Some(WordOption::MaxInterleaveDelta)
    } else if word == "-max_input_bytes" {
        Some(WordOption::MaxInputBytes)
    } else {
        None
    }
}

fn target_of(word: &str) -> Option<Target>
    ensures { result ≡ target_named word.now }
{
    if word == "tee" {
        return Some(Target::Tee);
    }
    match format_of(word) {
        Some(format) => Some(Target::One(format)),
        None => None,
    }
}

fn begins_with_dash(word: &str) -> bool
    ensures { result ≡ begins_with_dash word.now }
{
    matches!(word.as_bytes(), [b'-', ..])
}

impl<'a> Said<'a> {
    fn has(&self, option: WordOption) -> bool
        ensures { result ≡ is_said option (said_view self.now) }
    {
        match option {
            WordOption::Input => self.input.is_some(),
            WordOption::Format => self.target.is_some(),
            WordOption::MaxInterleaveDelta => self.delta_us.is_some(),
            WordOption::MaxInputBytes => self.max_bytes.is_some(),
        }
    }

    // What is said with one option more.
    fn with_value(self, option: WordOption, value: &'a str) -> Result<Said<'a>, WordKind>
        ensures { Shows said_view result (said_by option value.now (said_view self.entry)) }
    {
        let mut said = self;
        match option {
            WordOption::Input => {
                if let Some(fault) = name_fault(value) {
                    return Err(fault);
                }
                said.input = Some(value);
            }
            WordOption::Format => {
                let Some(target) = target_of(value) else {
                    return Err(WordKind::UnknownFormat);
                };
                said.target = Some(target);
            }
            WordOption::MaxInterleaveDelta => {
                let Some(delta_us) = number_in(value, 0, 1_000_000_000_000_000) else {
                    return Err(WordKind::BadValue);
                };
                said.delta_us = Some(delta_us);
            }
            WordOption::MaxInputBytes => {
                let Some(max_bytes) = number_in(value, 9, 1 << 40) else {
                    return Err(WordKind::BadValue);
                };
                said.max_bytes = Some(max_bytes);
            }
        }
        Ok(said)
    }

    // What is said with one option more, which stands at the word `at`, and its value behind it.
    #[tactic(auto, unfolding(crate::specs::Words::with_value))]
    fn with(self, option: WordOption, value: &'a str, at: usize) -> Result<Said<'a>, WordError>
        requires { at + 1 < 2 ^ 64 }
        ensures { GivesAt said_view result (with_value option at value.now (said_view self.entry)) }
    {
        if self.has(option) {
            return Err(WordError::Fault(WordKind::BadValue, at));
        }
        match self.with_value(option, value) {
            Ok(said) => Ok(said),
            Err(fault) => Err(WordError::Fault(fault, at + 1)),
        }
    }
}

// The outputs that a target says.
#[tactic(auto, unfolding(crate::specs::Words::target_slaves))]
fn target_slaves(alloc: Global, target: Target, word: &str) -> Result<Vec<SlavePlan>, ReadError>
    ensures { Gives (λ plans. map slave_view plans.items) result (target_slaves target word.now) }
{
    match target {
        Target::Tee => {
            if word.is_empty() {
                return Err(ReadError::Fault(WordKind::BadValue));
            }
            slaves_of(alloc, word)
        }
        Target::One(format) => {
            let slave = default_slave(alloc, format, word)?;
            Ok(vec![in alloc; slave]?)
        }
    }
}

// The outputs that a text of a tee says, which stands at the word `at`.
fn slaves_at(
    alloc: Global,
    target: Target,
    word: &str,
    at: usize,
) -> Result<Vec<SlavePlan>, WordError>
    ensures { GivesAt (λ plans. map slave_view plans.items) result (at_word at (target_slaves target word.now)) }
{
    match target_slaves(alloc, target, word) {
        Ok(slaves) => Ok(slaves),
        Err(ReadError::Memory) => Err(WordError::Memory),
        Err(ReadError::Fault(kind)) => Err(WordError::Fault(kind, at)),
    }
}

// The plan of these outputs. `at` is the number of words.
fn plan_of(
    alloc: Global,
    said: Said<'_>,
    slaves: Vec<SlavePlan>,
    at: usize,
) -> Result<Plan, WordError>
    ensures { GivesAt plan_view result (plan_of at (said_view said.entry) (map slave_view slaves.items)) }
{
    let Some(input) = said.input else {
        return Err(WordError::Fault(WordKind::NoInput, at));
    };
    let Ok(input) = Text::of(alloc, input) else {
        return Err(WordError::Memory);
    };
    Ok(Plan {
        source: Source::Named(input),
        delta_us: said.delta_us.unwrap_or(10_000_000),
        max_bytes: said.max_bytes.unwrap_or(1 << 40),
        slaves: Items::from_vec(slaves),
    })
}

// The plan of a target, which has to be the last word.
#[tactic(auto, unfolding(crate::specs::Words::target))]
fn target_at(
    alloc: Global,
    said: Said<'_>,
    word: &str,
    at: usize,
    words_left: usize,
) -> Result<Plan, WordError>
    requires { at + 1 < 2 ^ 64 }
    ensures { GivesAt plan_view result (target at words_left word.now (said_view said.entry)) }
{
    let Some(target) = said.target else {
        return Err(WordError::Fault(WordKind::UnknownFormat, at));
    };
    let slaves = slaves_at(alloc, target, word, at)?;
    if words_left != 0 {
        return Err(WordError::Fault(WordKind::UnknownWord, at + 1));
    }
    plan_of(alloc, said, slaves, at + 1)
}

// The plan of words that begin with options.
#[tactic(auto, unfolding(crate::specs::Words::words_from))]
fn plan_words(alloc: Global, words: &[String]) -> Result<Plan, WordError>
    ensures { GivesAt plan_view result (words_from 0 nothing_said (map string_bytes words.now)) }
{
    let mut said = Said {
        input: None,
        target: None,
        delta_us: None,
        max_bytes: None,
    };
    let mut rest = words;
    let mut at = 0usize;
    while let Some((word, behind)) = rest.split_first() {
        match word_option_of(word) {
            Some(option) => {
                let Some((value, behind)) = behind.split_first() else {
                    return Err(WordError::Fault(WordKind::MissingValue, at));
                };
                said = said.with(option, value, at)?;
                rest = behind;
                at += 2;
            }
            None => {
                if begins_with_dash(word) {
                    return Err(WordError::Fault(WordKind::UnknownWord, at));
                }
                return target_at(alloc, said, word, at, behind.len());
            }
        }
    }
    if said.input.is_none() {
        return Err(WordError::Fault(WordKind::NoInput, at));
    }
    Err(WordError::Fault(WordKind::NoOutput, at))
}

// The plan of an input that is made.
fn generated(alloc: Global, words: &[String]) -> Result<Plan, WordError>
    ensures { GivesAt plan_view result (generated (map string_bytes words.now)) }
{
    let Some((count, more)) = words.split_first() else {
        return Err(WordError::Fault(WordKind::MissingValue, 0));
    };
    let Some(count) = number_in(count, 1, 20_000) else {
        return Err(WordError::Fault(WordKind::BadValue, 1));
    };
    if !more.is_empty() {
        return Err(WordError::Fault(WordKind::UnknownWord, 2));
    }
    let slaves = slaves_at(alloc, Target::Tee, GENERATED_SLAVES, 1)?;
    Ok(Plan {
        source: Source::Generated(count as u32),
        delta_us: 10_000_000,
        max_bytes: 1 << 40,
        slaves: Items::from_vec(slaves),
    })
}

fn plan_of_words(alloc: Global, words: &[String]) -> Result<Plan, WordError>
    ensures { GivesAt plan_view result (plan (map string_bytes words.now)) }
{
    let Some((word, behind)) = words.split_first() else {
        return plan_words(alloc, words);
    };
    if word.as_str() == "generate" {
        return generated(alloc, behind);
    }
    plan_words(alloc, words)
}

fn fault_at(kind: WordKind, at: usize) -> WordFault
    ensures { result ≡ record { kind = kind; word = min at 4294967295 } }
{
    WordFault {
        kind,
        word: at.min(0xFFFF_FFFF) as u32,
    }
}

/// The plan that the words of a command line say, without the program's name. The first fault from the left is answered,
/// with the number of its word. Want of memory is told as NoMemory at word 0.
pub fn read_words(alloc: Global, words: &[String]) -> Result<Plan, WordFault>
    ensures plan { Answers result (plan (map string_bytes words.now)) }
    ensures valid { IfOk result (λ p. IsValidPlan (plan_view p)) }
{
    match plan_of_words(alloc, words) {
        Ok(plan) => Ok(plan),
        Err(WordError::Memory) => Err(fault_at(WordKind::NoMemory, 0)),
        Err(WordError::Fault(kind, at)) => Err(fault_at(kind, at)),
    }
}
