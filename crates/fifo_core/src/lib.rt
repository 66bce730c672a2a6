//! The fate machine of one output: what becomes of each packet, by what the muxer answered so far.
#![tactic(auto)]

mod laws;
mod state;
mod types;

pub use laws::{determined, each_fate_is_caused, whole};
pub use state::FifoState;
pub use types::{Action, After, Answer, EndState, Fate, FifoOptions, PacketFacts};

#[cfg(test)]
mod tests {
    use super::*;
    use std::test::Fail;

    const RECOVERS: FifoOptions = FifoOptions {
        use_fifo: true,
        queue_size: 60,
        queue_bytes: 0,
        dropping: false,
        attempt_recovery: true,
        max_attempts: 0,
        wait_ms: 0,
        restart: true,
    };

    const KEY: PacketFacts = PacketFacts {
        dts: 0,
        restart: true,
    };

    const OTHER: PacketFacts = PacketFacts {
        dts: 40,
        restart: false,
    };

    const AT_ONCE: FifoOptions = FifoOptions {
        restart: false,
        ..RECOVERS
    };

    // The write of packet 1 fails; it is written again in session 1.
    #[test]
    fn a_packet_is_written_again(rt: HostRuntime) -> Result<(), Fail> {
        let mut fifo = FifoState::new(AT_ONCE);
        fifo.on_begin(Answer::Done);
        assert_eq!(rt; fifo.on_packet(0, KEY), Action::Write);
        assert_eq!(rt;
            fifo.on_answer(Answer::Done),
            After::Settle(Fate::Written(0))
        );
        assert_eq!(rt; fifo.on_packet(1, KEY), Action::Write);
        assert_eq!(rt; fifo.on_answer(Answer::Fault), After::Again);
        assert_eq!(rt; fifo.session(), 1);
        assert_eq!(rt;
            fifo.on_answer(Answer::Done),
            After::Settle(Fate::Written(1))
        );
        assert!(rt; fifo.is_live());
        assert_eq!(rt; fifo.on_end(Some(Answer::Done)), EndState::Closed);
        Ok(())
    }

    // The write of packet 1 fails; it may not stand first, so the next session begins with packet 2.
    #[test]
    fn a_session_begins_with_a_key(rt: HostRuntime) -> Result<(), Fail> {
        let mut fifo = FifoState::new(RECOVERS);
        fifo.on_begin(Answer::Done);
        assert_eq!(rt; fifo.on_packet(0, KEY), Action::Write);
        assert_eq!(rt;
            fifo.on_answer(Answer::Done),
            After::Settle(Fate::Written(0))
        );
        assert_eq!(rt; fifo.on_packet(1, OTHER), Action::Write);
        assert_eq!(rt; fifo.on_answer(Answer::Fault), After::Settle(Fate::KeyWait));
        assert_eq!(rt; fifo.on_packet(2, KEY), Action::OpenAndWrite);
        assert_eq!(rt; fifo.session(), 1);
        assert_eq!(rt;
            fifo.on_answer(Answer::Done),
            After::Settle(Fate::Written(1))
        );
        Ok(())
    }

    // The write of packet 1 fails, and so does the begin of session 1: the packet is lost, and packet 2 opens session 2.
    #[test]
    fn a_second_fault_loses_the_packet(rt: HostRuntime) -> Result<(), Fail> {
        let mut fifo = FifoState::new(AT_ONCE);
        fifo.on_begin(Answer::Done);
        assert_eq!(rt; fifo.on_packet(0, KEY), Action::Write);
        assert_eq!(rt;
            fifo.on_answer(Answer::Done),
            After::Settle(Fate::Written(0))
        );
        assert_eq!(rt; fifo.on_packet(1, KEY), Action::Write);
        assert_eq!(rt; fifo.on_answer(Answer::Fault), After::Again);
        assert_eq!(rt; fifo.on_answer(Answer::Fault), After::Settle(Fate::Lost(1)));
        assert_eq!(rt; fifo.on_packet(2, KEY), Action::OpenAndWrite);
        assert_eq!(rt;
            fifo.on_answer(Answer::Done),
            After::Settle(Fate::Written(2))
        );
        Ok(())
    }

    // Packets 0 and 1 are flushed and 2 and 3 never come; packet 4 waits for the key packet 5.
    #[test]
    fn a_flush_leaves_a_gap(rt: HostRuntime) -> Result<(), Fail> {
        let mut fifo = FifoState::new(RECOVERS);
        fifo.on_begin(Answer::Done);
        assert_eq!(rt; fifo.on_flush(2, 0), Fate::Flushed(2));
        assert_eq!(rt; fifo.on_flush(2, 1), Fate::Flushed(2));
        assert_eq!(rt; fifo.on_packet(4, OTHER), Action::Settle(Fate::KeyWait));
        assert_eq!(rt; fifo.on_packet(5, KEY), Action::Write);
        assert_eq!(rt;
            fifo.on_answer(Answer::Done),
            After::Settle(Fate::Written(0))
        );
        Ok(())
    }

    // One attempt may fail, and each waits for 100 ms of stream time.
    #[test]
    fn an_output_is_given_up(rt: HostRuntime) -> Result<(), Fail> {
        let mut fifo = FifoState::new(FifoOptions {
            max_attempts: 1,
            wait_ms: 100,
            ..AT_ONCE
        });
        fifo.on_begin(Answer::Done);
        assert_eq!(rt; fifo.on_packet(0, KEY), Action::Write);
        assert_eq!(rt; fifo.on_answer(Answer::Fault), After::Settle(Fate::Lost(0)));
        assert_eq!(rt; fifo.on_packet(1, OTHER), Action::Settle(Fate::Lost(0)));
        assert!(rt; !fifo.is_dead());
        assert_eq!(rt;
            fifo.on_packet(
                2,
                PacketFacts {
                    dts: 100,
                    restart: true
                }
            ),
            Action::OpenAndWrite
        );
        assert_eq!(rt; fifo.on_answer(Answer::Fault), After::Settle(Fate::Lost(1)));
        assert!(rt; fifo.is_dead());
        assert_eq!(rt;
            fifo.on_packet(3, KEY),
            Action::Settle(Fate::AfterFailure(1))
        );
        assert_eq!(rt; fifo.on_flush(1, 4), Fate::AfterFailure(1));
        assert_eq!(rt; fifo.on_end(None), EndState::Failed);
        Ok(())
    }

    // A place was refused: every later answer says so.
    #[test]
    fn a_want_stays(rt: HostRuntime) -> Result<(), Fail> {
        let mut fifo = FifoState::new(AT_ONCE);
        fifo.on_begin(Answer::Done);
        fifo.on_want();
        assert_eq!(rt; fifo.on_packet(0, KEY), Action::Settle(Fate::NoMemory));
        assert!(rt; !fifo.is_live());
        assert_eq!(rt; fifo.on_end(None), EndState::NoMemory);
        Ok(())
    }
}
