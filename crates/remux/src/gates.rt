// A gate of tests, which holds the reader or a worker until another has come to some point.
use rmx_edge::{Gate, Point};
use std::alloc::Global;
use std::sync::Wait;
use std::sync::atomic::{AtomicU64, Ordering};
use std::test::Fail;
use std::time::Duration;

// That the reader or a worker comes to a point for the output of this number, for the first time or a later one.
#[derive(Clone, Copy)]
pub(super) struct Coming {
    pub slave: u32,
    pub point: Point,
    pub times: u64,
}

// Who comes so is held until another has come so, and for so many turns more.
#[derive(Clone, Copy)]
pub(super) struct Hold {
    pub at: Coming,
    pub until: Coming,
    pub rest: u64,
}

// The points of two outputs.
const POINTS: usize = 8;

// A thread is held for at most so many turns, of a fifth of a millisecond each.
const MOST_TURNS: u64 = 65536;

// Holds those whom its list names. Others pass at once.
#[derive(Drop)]
pub(super) struct HoldingGate {
    holds: Vec<Hold>,
    // How often each point was come to.
    comings: Vec<AtomicU64>,
    // How often the reader had come with a packet for the first output when the last hold ended.
    offers: AtomicU64,
    // How many were held for too long.
    late: AtomicU64,
    // It stays 0, so that each turn ends by its time.
    word: AtomicU64,
}

fn place(slave: u32, point: Point) -> usize {
    let at = match point {
        Point::BeforeOffer => 0,
        Point::BeforeTake => 1,
        Point::BeforeWrite => 2,
        Point::AfterEnd => 3,
    };
    (slave as usize).saturating_mul(4).saturating_add(at)
}

impl HoldingGate {
    pub(super) fn new(alloc: Global, holds: &[Hold]) -> Result<HoldingGate, Fail> {
        let mut comings = Vec::new(alloc);
        for _ in 0..POINTS {
            comings.push(AtomicU64::new(0))?;
        }
        Ok(HoldingGate {
            holds: Vec::from_slice(alloc, holds)?,
            comings,
            offers: AtomicU64::new(0),
            late: AtomicU64::new(0),
            word: AtomicU64::new(0),
        })
    }

    // How often the point was come to.
    fn count(&self, slave: u32, point: Point) -> u64 {
        match self.comings.get(place(slave, point)) {
            Some(count) => count.load(Ordering::SeqCst),
            None => 0,
        }
    }

    pub(super) fn offers(&self) -> u64 {
        self.offers.load(Ordering::SeqCst)
    }

    pub(super) fn late(&self) -> u64 {
        self.late.load(Ordering::SeqCst)
    }

    fn has_come(&self, coming: Coming) -> bool {
        self.count(coming.slave, coming.point) >= coming.times
    }

    fn rest<R: Wait>(&self, rt: &R) {
        self.word.park_timeout(rt, 0, Duration::from_micros(200));
    }

    fn hold<R: Wait>(&self, rt: &R, hold: Hold) {
        let mut turns = 0u64;
        for _ in 0..MOST_TURNS {
            if self.has_come(hold.until) {
                break;
            }
            self.rest(rt);
            turns = turns.saturating_add(1);
        }
        if turns == MOST_TURNS {
            self.late.fetch_add(1, Ordering::SeqCst);
        }
        for _ in 0..hold.rest {
            self.rest(rt);
        }
        let offers = self.count(0, Point::BeforeOffer);
        self.offers.store(offers, Ordering::SeqCst);
    }
}

impl Gate for HoldingGate {
    fn pass<R: Wait>(&self, rt: &R, slave: u32, point: Point) {
        let Some(count) = self.comings.get(place(slave, point)) else {
            return;
        };
        let times = count.fetch_add(1, Ordering::SeqCst).saturating_add(1);
        for hold in self.holds.as_slice() {
            let at = hold.at;
            if at.slave == slave && at.point == point && at.times == times {
                self.hold(rt, *hold);
            }
        }
    }
}
