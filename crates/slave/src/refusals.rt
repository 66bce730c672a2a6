// The refusals of a lane are entered among the fates of its output.
ghost use Rattle.std.specs.Prelude.{◌≡◌, ◌+◌, ◌-◌, ◌≤◌, ◌<◌, ◌++◌, [], ℕ, true, false, List, Some, length, map, drop, IfOk, IfErr};
ghost use Rattle.fifo_core.specs.declared.types.FifoOptions.{FifoOptions};
ghost use Rattle.rmx_media.specs.declared.packet.Packet.{Packet};
ghost use Rattle.slave.specs.Origin.{Origin};
ghost use Rattle.slave.specs.Given.{Given};
ghost use Rattle.slave.specs.Entered.{below, behind, refusal, entered};

use crate::job::SlaveEnd;
use crate::records::{LaneNote, Run};
use fifo_core::{EndState, Fate};
use lane::{LaneCounts, Receipt};
use rmx_edge::Shelf;
use rmx_media::Items;
use std::alloc::Global;

impl<S: Shelf> SlaveEnd<S> {
    ghost use Rattle.slave.specs.End.{EndedAll, end_view};
    ghost use Rattle.slave.specs.LaneAccounts.{AddsLane, Dealt, AccountsLane};

    /// Notes what is left of the lane before the output, and enters the refused packets among its fates. The answer true says
    /// that memory was wanted for them: then none is entered.
    pub fn with_refusals(
        self,
        alloc: Global,
        cap: u32,
        counts: LaneCounts,
        receipts: Items<Receipt>,
    ) -> (SlaveEnd<S>, bool)
        ensures adds { AddsLane (record { cap = cap; counts = counts; receipts = receipts }) (end_view S.state self) (end_view S.state result.0) result.1 }
        ensures accounts { (g : Origin) (o : FifoOptions) (L : List Packet) (T : List Given) (numbers : List (ℕ × ℕ))
            → EndedAll g o T (end_view S.state self) → Dealt L T numbers (record { cap = cap; counts = counts; receipts = receipts })
            → AccountsLane g o L (record { cap = cap; counts = counts; receipts = receipts }) (end_view S.state result.0) }
    {
        let SlaveEnd {
            shelf,
            fates,
            sessions,
            faults,
            state,
            inline,
            lane: _,
            bytes,
        } = self;
        match enter(alloc, fates, &receipts) {
            Ok(fates) => (
                SlaveEnd {
                    shelf,
                    fates,
                    sessions,
                    faults,
                    state,
                    inline,
                    lane: Some(LaneNote {
                        cap,
                        counts,
                        receipts,
                    }),
                    bytes,
                },
                false,
            ),
            Err(fates) => (
                SlaveEnd {
                    shelf,
                    fates,
                    sessions,
                    faults,
                    state: EndState::NoMemory,
                    inline,
                    lane: Some(LaneNote {
                        cap,
                        counts,
                        receipts,
                    }),
                    bytes,
                },
                true,
            ),
        }
    }
}

// The runs with the refusals between them, in time linear in both. Want of memory leaves the runs as they are.
fn enter(
    alloc: Global,
    runs: Items<Run>,
    receipts: &Items<Receipt>,
) -> Result<Items<Run>, Items<Run>>
    ensures ok { IfOk result (λ all. all.items ≡ entered runs.items receipts.now.items) }
    ensures err { IfErr result (λ same. (same.items ≡ runs.items) × (receipts.now.items ≡ [] → ⊥)) }
{
    let refused = receipts.as_slice();
    if refused.is_empty() {
        return Ok(runs);
    }
    let mut all = Items::new(alloc);
    let Some(count) = runs.as_slice().len().checked_add(refused.len()) else {
        return Err(runs);
    };
    let Ok(()) = all.reserve(count) else {
        return Err(runs);
    };
    merge(runs.as_slice(), refused, &mut all);
    Ok(all)
}

// Adds the runs, and each refusal before the run behind it.
fn merge(runs: &[Run], receipts: &[Receipt], all: &mut Items<Run>)
    requires empty { all.old.items ≡ [] }
    requires places { length runs.now + length receipts.now ≤ all.old.spare }
    ensures { all.new.items ≡ entered runs.now receipts.now }
{
    let mut next = 0;
    for k in 0..runs.len() {
        let run = runs[k];
        next = enter_before(receipts, next, run, all);
        all.push(run);
        next = leave_out(receipts, next, run);
    }
    enter_rest(receipts, next, all);
}

// Adds the refusals that come before a run, from the next one on, and answers which is then the next.
fn enter_before(receipts: &[Receipt], next: usize, run: Run, all: &mut Items<Run>) -> usize
    requires within { next ≤ length receipts.now }
    requires places { length receipts.now ≤ next + all.old.spare }
    ensures within { (next ≤ result) × (result ≤ length receipts.now) }
    ensures items { all.new.items ≡ all.old.items ++ map refusal (below run.first (drop next receipts.now)) }
    ensures rest { drop result receipts.now ≡ behind run.first (drop next receipts.now) }
    ensures spare { all.new.spare + result ≡ all.old.spare + next }
{
    for k in next..receipts.len() {
        let receipt = &receipts[k];
        if receipt.index() >= run.first {
            return k;
        }
        all.push(refused(receipt));
    }
    receipts.len()
}

// Leaves out the refusals whose packets the run covers, from the next one on, and answers which is then the next.
fn leave_out(receipts: &[Receipt], next: usize, run: Run) -> usize
    requires within { next ≤ length receipts.now }
    ensures within { (next ≤ result) × (result ≤ length receipts.now) }
    ensures rest { drop result receipts.now ≡ behind (run.first + run.count) (drop next receipts.now) }
{
    for k in next..receipts.len() {
        let index = receipts[k].index();
        if index >= run.first && index - run.first >= run.count {
            return k;
        }
    }
    receipts.len()
}

// Adds all refusals, from the next one on.
fn enter_rest(receipts: &[Receipt], next: usize, all: &mut Items<Run>)
    requires within { next ≤ length receipts.now }
    requires places { length receipts.now ≤ next + all.old.spare }
    ensures { all.new.items ≡ all.old.items ++ map refusal (drop next receipts.now) }
{
    for k in next..receipts.len() {
        all.push(refused(&receipts[k]));
    }
}

fn refused(receipt: &Receipt) -> Run
    ensures { result ≡ refusal receipt.now }
{
    Run {
        fate: Fate::Refused(receipt.number()),
        first: receipt.index(),
        count: 1,
    }
}
