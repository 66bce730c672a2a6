// Fates are kept as runs.
ghost use Rattle.std.specs.Prelude.{◌≡◌, ◌+◌, ◌≤◌, ◌<◌, true, false, ◌^◌};
ghost use Rattle.slave.specs.Runs.{expand, pushed, Joins, AreInOrder};

use crate::places::Places;
use crate::records::Run;
use fifo_core::Fate;

/// Whether the last run goes on with this packet. One of packets without memory goes on with every later one.
pub fn joins(runs: &Places<Run>, index: u64, fate: Fate) -> bool
    ensures yes { result ≡ true → Joins runs.now.items index fate }
    ensures no { Joins runs.now.items index fate → result ≡ true }
{
    match runs.last() {
        Some(last) => {
            if last.fate != fate || last.first > index {
                return false;
            }
            let behind = index - last.first;
            behind == last.count || (fate == Fate::NoMemory && behind > last.count)
        }
        None => false,
    }
}

/// Adds the fate of a packet: to the last run, or as a run of its own. A run of packets without memory then has the refused
/// packets between too.
pub fn add_fate(runs: &mut Places<Run>, index: u64, fate: Fate)
    requires place { (Joins runs.old.items index fate → ⊥) → 1 ≤ runs.old.spare }
    requires few { index < 2 ^ 61 }
    ensures fates { AreInOrder index runs.old.items → expand runs.new.items ≡ pushed (expand runs.old.items) index fate }
    ensures joins { Joins runs.new.items (index + 1) fate }
    ensures order { AreInOrder index runs.old.items → AreInOrder (index + 1) runs.new.items }
    ensures kept { Joins runs.old.items index fate → runs.new.spare ≡ runs.old.spare }
    ensures places { runs.old.spare ≤ runs.new.spare + 1 }
{
    match runs.last() {
        Some(last) => {
            if joins(runs, index, fate) {
                runs.replace_last(Run {
                    fate,
                    first: last.first,
                    count: index - last.first + 1,
                });
            } else {
                runs.push(Run {
                    fate,
                    first: index,
                    count: 1,
                });
            }
        }
        None => runs.push(Run {
            fate,
            first: index,
            count: 1,
        }),
    }
}
