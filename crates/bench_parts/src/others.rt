// The same messages through the queues of other crates.
ghost use Rattle.std.specs.Prelude.{◌<◌};

use crate::packets::msg;
use crossbeam_queue::ArrayQueue;
use lane::Msg;
use rmx_media::NoMemory;
use rtrb::{Consumer, Producer, PushError, RingBuffer};
use std::alloc::Global;
use std::sync::Wait;
use std::thread;
use std::thread::Threads;

fn ring_put<R: Wait>(rt: &R, producer: &mut Producer<Msg>, message: Msg) {
    let mut message = message;
    for _ in rt.forever() {
        match producer.push(message) {
            Ok(()) => return,
            Err(PushError::Full(back)) => message = back,
        }
        thread::yield_now();
    }
}

fn ring_put_all<R: Wait>(rt: &R, producer: Producer<Msg>, count: u32) {
    let mut producer = producer;
    for i in 0..count {
        ring_put(rt, &mut producer, msg(u64::from(i)));
    }
}

fn ring_take<R: Wait>(rt: &R, consumer: &mut Consumer<Msg>) -> Msg {
    for _ in rt.forever() {
        if let Ok(message) = consumer.pop() {
            return message;
        }
        thread::yield_now();
    }
    unreachable!()
}

fn ring_take_all<R: Wait>(rt: &R, consumer: Consumer<Msg>, count: u32) -> u32 {
    let mut consumer = consumer;
    let mut taken = 0u32;
    for _ in 0..count {
        let _message = ring_take(rt, &mut consumer);
        taken = taken.wrapping_add(1);
    }
    taken
}

/// Passes so many messages through a ring of `rtrb`, and answers how many came.
pub fn pass_ring<R: Threads + Wait + Sync>(
    rt: &R,
    alloc: Global,
    cap: u32,
    count: u32,
) -> Result<u32, NoMemory> {
    let Ok((producer, consumer)) = RingBuffer::new(alloc, cap as usize) else {
        return Err(NoMemory);
    };
    let (_, taken) = thread::join(
        rt,
        move || ring_put_all(rt, producer, count),
        move || ring_take_all(rt, consumer, count),
    );
    Ok(taken)
}

fn queue_put<R: Wait>(rt: &R, queue: &ArrayQueue<Msg>, message: Msg) {
    let mut message = message;
    for _ in rt.forever() {
        match queue.push(rt, message) {
            Ok(()) => return,
            Err(back) => message = back,
        }
        thread::yield_now();
    }
}

fn queue_put_all<R: Wait>(rt: &R, queue: &ArrayQueue<Msg>, count: u32) {
    for i in 0..count {
        queue_put(rt, queue, msg(u64::from(i)));
    }
}

fn queue_take<R: Wait>(rt: &R, queue: &ArrayQueue<Msg>) -> Msg {
    for _ in rt.forever() {
        if let Some(message) = queue.pop(rt) {
            return message;
        }
        thread::yield_now();
    }
    unreachable!()
}

fn queue_take_all<R: Wait>(rt: &R, queue: &ArrayQueue<Msg>, count: u32) -> u32 {
    let mut taken = 0u32;
    for _ in 0..count {
        let _message = queue_take(rt, queue);
        taken = taken.wrapping_add(1);
    }
    taken
}

/// Passes so many messages through a queue of `crossbeam_queue`, and answers how many came.
pub fn pass_queue<R: Threads + Wait + Sync>(
    rt: &R,
    alloc: Global,
    cap: u32,
    count: u32,
) -> Result<u32, NoMemory>
    requires { 0 < cap }
{
    let Ok(queue) = ArrayQueue::new(alloc, cap as usize) else {
        return Err(NoMemory);
    };
    let (_, taken) = thread::join(
        rt,
        || queue_put_all(rt, &queue, count),
        || queue_take_all(rt, &queue, count),
    );
    Ok(taken)
}
