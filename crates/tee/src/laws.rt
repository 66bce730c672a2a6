// What holds of the ends of every run.
ghost use Rattle.tee.specs.Schedule.{SchedulePlaysNoPart};

use slave::faults_decide;

/// Of an output that blocks (one that asks for no thread, or doesn't drop, or that the reader wrote in its thread's place), the packets
/// and the calls at which faults were noted decide fates, sessions and state: the schedule of the threads plays no part.
pub fn schedule_plays_no_part()
    ensures { SchedulePlaysNoPart }
{
    faults_decide();
}
