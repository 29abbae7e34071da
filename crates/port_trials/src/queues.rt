// Queues of numbers.
ghost use Rattle.std.specs.Prelude.{◌≡◌, ◌<◌, ⊤, true, IfOk};
ghost use Rattle.crossbeam_queue.specs.Passes.{view, IsPassOf};

use case_rows::{Answered, Answers, CaseFault, Inputs, step_parts};
use ring_queue::{
    Item, OrderedPass, OrderedQueue, is_empty, is_full, ordered_queue, put, settle, take,
};
use std::alloc::Global;
use std::sync::Wait;
use std::thread;
use std::thread::Threads;

/// An item. Any may follow.
#[derive(Clone, Copy)]
struct Number(u64);

impl Item for Number {
    ghost follows = { λ _ _. ⊤ };
}

/// A queue with both sides.
#[derive(Drop)]
struct Queue {
    queue: OrderedQueue<Number>,
    sender: OrderedPass<Number>,
    taker: OrderedPass<Number>,
    ghost passes: { IsPassOf queue sender × IsPassOf queue taker },
    ghost sides: { ((view sender).sends ≡ true) × ((view taker).takes ≡ true) },
}

/// A queue: its capacity, and the calls put:NUMBER, take, full and empty.
pub(crate) fn ask_queue<R: Wait>(
    rt: &R,
    alloc: Global,
    inputs: &mut Inputs<'_>,
    answers: &mut Answers,
) -> Answered {
    let (queue, sender, taker) = ordered_queue::<Number>(alloc, capacity_of(inputs)?)?;
    let mut tried = Queue {
        queue,
        sender,
        taker,
    };
    for _ in 0..u64::MAX {
        let Some(step) = inputs.step() else {
            break;
        };
        tried.call(rt, step, answers)?;
    }
    tried.settle();
    Ok(())
}

fn capacity_of(inputs: &mut Inputs<'_>) -> Result<usize, CaseFault>
    ensures { IfOk result (λ capacity. 0 < capacity) }
{
    let capacity = inputs.word()?.parse::<usize>()?;
    if capacity == 0 {
        return Err(CaseFault::NoRow);
    }
    Ok(capacity)
}

impl Queue {
    fn call<R: Wait>(&mut self, rt: &R, step: &str, answers: &mut Answers) -> Answered {
        match step_parts(step) {
            ("put", value) => {
                match put(
                    rt,
                    &self.queue,
                    &mut self.sender,
                    Number(value.parse::<u64>()?),
                ) {
                    Ok(()) => answers.word("put"),
                    Err(Number(back)) => answers.word_and_number("back", back),
                }
            }
            ("take", _) => match take(rt, &self.queue, &mut self.taker) {
                Some(Number(number)) => answers.number(number),
                None => answers.word("none"),
            },
            ("full", _) => answers.truth(is_full(&self.queue, &mut self.sender)),
            ("empty", _) => answers.truth(is_empty(&self.queue, &mut self.taker)),
            _ => return Err(CaseFault::NoRow),
        }
        Ok(())
    }

    /// Puts both sides into one hand.
    fn settle(self) {
        let Queue {
            queue,
            sender,
            taker,
        } = self;
        let _ = settle(&queue, sender, taker);
    }
}

/// The side of a thread that sends.
#[derive(Drop)]
struct QueueSender<'q> {
    queue: &'q OrderedQueue<Number>,
    pass: OrderedPass<Number>,
    ghost of_queue: { IsPassOf queue.now pass },
    ghost sends: { (view pass).sends ≡ true },
}

impl<'q> QueueSender<'q> {
    fn send<R: Wait>(&mut self, rt: &R, number: u64) {
        for _ in rt.forever() {
            match put(rt, self.queue, &mut self.pass, Number(number)) {
                Ok(()) => return,
                Err(_) => thread::yield_now(),
            }
        }
        unreachable!()
    }

    fn count_up<R: Wait>(mut self, rt: &R, count: u64) {
        for number in 0..count {
            self.send(rt, number);
        }
    }
}

/// The side of a thread that takes.
#[derive(Drop)]
struct Taker<'q> {
    queue: &'q OrderedQueue<Number>,
    pass: OrderedPass<Number>,
    ghost of_queue: { IsPassOf queue.now pass },
    ghost takes: { (view pass).takes ≡ true },
}

impl<'q> Taker<'q> {
    fn next<R: Wait>(&mut self, rt: &R) -> u64 {
        for _ in rt.forever() {
            match take(rt, self.queue, &mut self.pass) {
                Some(Number(number)) => return number,
                None => thread::yield_now(),
            }
        }
        unreachable!()
    }

    /// How many came in order.
    fn count<R: Wait>(mut self, rt: &R, count: u64) -> u64 {
        for number in 0..count {
            if self.next(rt) != number {
                return number;
            }
        }
        count
    }
}

/// Numbers from 0 that one thread sends to another: the capacity of the queue, and how many. The answer is how many came
/// in order.
pub(crate) fn ask_numbers<R: Threads + Wait + Sync>(
    rt: &R,
    alloc: Global,
    inputs: &mut Inputs<'_>,
    answers: &mut Answers,
) -> Answered {
    let (queue, sender, taker) = ordered_queue::<Number>(alloc, capacity_of(inputs)?)?;
    let count = inputs.number()?;
    let sender = QueueSender {
        queue: &queue,
        pass: sender,
    };
    let taker = Taker {
        queue: &queue,
        pass: taker,
    };
    let (_, came) = thread::join(
        rt,
        move || sender.count_up(rt, count),
        move || taker.count(rt, count),
    );
    answers.number(came);
    Ok(())
}
