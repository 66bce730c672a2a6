// Runs of the machine by worked cases.
use crate::LaneEvent::{Close, Fail, Offer, See, Take};
use crate::LaneReply::{Accepted, Done, Empty, Ended, Got, Overs, Refused, Shut};
use crate::{LaneReply, LaneState, run_events};
use std::test::Fail as Failure;

#[test]
fn replies_in_order(rt: HostRuntime) -> Result<(), Failure> {
    // at most one message, of any size
    let events = [
        Offer(0, 1),
        Offer(1, 1),
        See,
        Take,
        Take,
        Close,
        Take,
        Close,
    ];
    let Ok(replies) = run_events(rt.alloc(), 1, 0, &events) else {
        panic!(rt; "no memory")
    };
    let wanted = [
        Accepted,
        Refused(1),
        Overs(1),
        Got(0),
        Empty,
        Done,
        Ended,
        Shut,
    ];
    assert!(rt; replies.as_slice() == wanted.as_slice());
    // at most four messages and ten bytes: an empty lane takes a message of any size
    let events = [
        Offer(0, 20),
        Offer(1, 1),
        Take,
        Offer(2, 11),
        Offer(3, 0),
        Fail,
        Take,
    ];
    let Ok(replies) = run_events(rt.alloc(), 4, 10, &events) else {
        panic!(rt; "no memory")
    };
    let wanted = [
        Accepted,
        Refused(1),
        Got(0),
        Accepted,
        Refused(2),
        Done,
        Got(2),
    ];
    assert!(rt; replies.as_slice() == wanted.as_slice());
    Ok(())
}

#[test]
fn steps_once(rt: HostRuntime) -> Result<(), Failure> {
    let Ok(mut state) = LaneState::new(rt.alloc(), 2, 5) else {
        panic!(rt; "no memory")
    };
    assert!(rt; state.step(Offer(7, 6)) == Accepted);
    assert_eq!(rt;
        (state.bytes, state.given, state.got, state.over),
        (6, 1, 0, 0)
    );
    let reply: LaneReply = Accepted;
    assert!(rt; reply != Empty);
    Ok(())
}
