//! The outputs of a tee's text.

ghost use Rattle.std.specs.Prelude.{◌≡◌, map, option_map};
ghost use Rattle.std.specs.Str.{chars};
ghost use Rattle.options.specs.Read.{Gives};
ghost use Rattle.options.specs.Slave.{view};
ghost use Rattle.options.specs.Tee.{is_named, is_taken, list_of, clashes, next_slave, slaves};

use crate::escape::piece_at;
use crate::fault::{ReadError, WordKind};
use crate::slave::{SlavePlan, slave_plan};
use crate::text::split_first;
use playlist::SegOptions;
use std::alloc::Global;

/// The most outputs of a run.
pub const MOST_SLAVES: usize = 16;

// The name of the list, where one is asked for.
fn list_of(seg: &Option<SegOptions>) -> Option<&str>
    ensures { option_map (λ name. name.now) result ≡ list_of seg.now }
{
    match seg {
        Some(options) => match &options.list {
            Some(list) => Some(list.as_str()),
            None => None,
        },
        None => None,
    }
}

// Whether the output's file or list has that name.
fn is_named(plan: &SlavePlan, name: &str) -> bool
    ensures { result ≡ is_named name.now (view plan.now) }
{
    if plan.name.as_str() == name {
        return true;
    }
    match list_of(&plan.seg) {
        Some(list) => list == name,
        None => false,
    }
}

fn is_taken(plans: &[SlavePlan], name: &str) -> bool
    ensures { result ≡ is_taken (map view plans.now) name.now }
{
    for plan in plans {
        if is_named(plan, name) {
            return true;
        }
    }
    false
}

// Whether the output's file or list has the name of an earlier file or list.
fn clashes(plans: &[SlavePlan], plan: &SlavePlan) -> bool
    ensures { result ≡ clashes (map view plans.now) (view plan.now) }
{
    if is_taken(plans, plan.name.as_str()) {
        return true;
    }
    match list_of(&plan.seg) {
        Some(list) => plan.name.as_str() == list || is_taken(plans, list),
        None => false,
    }
}

// The next output, behind those that came before, and what stands behind its text.
#[tactic(auto, unfolding(crate::specs::Tee::next_slave))]
fn next_slave<'a>(
    alloc: Global,
    plans: &[SlavePlan],
    text: &'a str,
) -> Result<(SlavePlan, &'a str), ReadError>
    ensures { Gives (λ x. (view x.0, chars x.1.now)) result (next_slave (map view plans.now) (chars text.now)) }
{
    if plans.len() == MOST_SLAVES {
        return Err(ReadError::Fault(WordKind::TooManySlaves));
    }
    let (piece, behind) = piece_at(alloc, text, &['|'])?;
    let plan = slave_plan(alloc, &piece)?;
    if clashes(plans, &plan) {
        return Err(ReadError::Fault(WordKind::SameTarget));
    }
    Ok((plan, behind))
}

/// The plans of the outputs that a text names, from the left.
pub fn slaves_of(alloc: Global, text: &str) -> Result<Vec<SlavePlan>, ReadError>
    ensures { Gives (λ plans. map view plans.items) result (slaves (chars text.now)) }
{
    let mut plans = Vec::new(alloc);
    let mut rest = text;
    'slaves: loop {
        let (plan, behind) = match next_slave(alloc, &plans, rest) {
            Ok(next) => next,
            Err(error) => return Err(error),
        };
        plans.push(plan)?;
        let Some((_, after)) = split_first(behind) else {
            return Ok(plans);
        };
        rest = after;
    }
}
