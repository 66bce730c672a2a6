// What holds of every end of an output.
ghost use Rattle.slave.specs.Accounts.{EndsMeetAccounts};
ghost use Rattle.slave.specs.AccountsAll.{EndsMeetAllAccounts};
ghost use Rattle.slave.specs.End.{GivenUpStaysSo, SoundNeverFails};
ghost use Rattle.slave.specs.Failures.{FailuresAreNoted};
ghost use Rattle.slave.specs.Handed.{HandsOver, LanesDeal};
ghost use Rattle.slave.specs.Headline.{NoFaultNoLoss};
ghost use Rattle.slave.specs.LaneAccounts.{LossIsBounded, UnrefusedFollow};
ghost use Rattle.slave.specs.Schedule.{FaultsDecide};
ghost use Rattle.slave.specs.WorkerDeals.{WorkersPassOn};

/// An output whose shelf's counts of faults and wants didn't rise is closed and holds its file over all packets.
pub fn no_fault_no_loss()
    ensures { NoFaultNoLoss }
{}

/// Every packet has one fate, every fate its cause, and every cause its note.
pub fn ends_meet_accounts()
    ensures { EndsMeetAccounts }
{}

/// The same where packets were refused or flushed, over all that the output was given.
pub fn ends_meet_all_accounts()
    ensures { EndsMeetAllAccounts }
{}

/// An output that was given up stays so, and it isn't closed at its end.
pub fn given_up_stays_so()
    ensures { GivenUpStaysSo }
{}

/// On a sound shelf an output isn't given up, and it is closed unless memory was wanted.
pub fn sound_never_fails()
    ensures { SoundNeverFails }
{}

/// An output that failed has a note of a fault, and its shelf's count of faults rose.
pub fn failures_are_noted()
    ensures { FailuresAreNoted }
{}

/// Behind a lane, refused and flushed packets together are at most as many as its refusals, each counted once and as often as
/// packets may wait.
pub fn loss_is_bounded()
    ensures { LossIsBounded }
{}

/// What a lane was offered is known packet by packet: each is given, or refused with a receipt.
pub fn lanes_hand_over()
    ensures { HandsOver }
{}

/// Where an output was given what its lane gave, the lane dealt all packets: each was given or refused.
pub fn lanes_deal()
    ensures { LanesDeal }
{}

/// A worker passes on what it got, and what it flushes comes in stretches.
pub fn workers_pass_on()
    ensures { WorkersPassOn }
{}

/// Of the packets of a lane that were not refused, each has the fate that it had in its turn.
pub fn unrefused_follow()
    ensures { UnrefusedFollow }
{}

/// Where no packet is refused, the calls at which faults were noted decide each packet's fate, the sessions and the state: the schedule
/// of the threads plays no part.
pub fn faults_decide()
    ensures { FaultsDecide }
{}
