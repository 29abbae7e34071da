// A flow that is filled and taken from step by step. First its lane: the block, how it is read and written, the number
// of bytes that may be read and the escape byte, each a number or `-`, and `stream` or `packets`.
ghost use Rattle.std.specs.Prelude.{◌≡◌, ◌≤◌, length, vec_len, IfOk, IfSome};
ghost use Rattle.relay_model.specs.{packet_cap};

use crate::spellings::{CONVS, value_of};
use case_rows::{Answered, Answers, CaseFault, Inputs, bytes_of, step_parts};
use line_ends::Convs;
use relay_buffer::{Flow, Lane, new_block};
use relay_model::Conv;
use std::alloc::Global;

pub(crate) fn ask(alloc: Global, inputs: &mut Inputs<'_>, answers: &mut Answers) -> Answered {
    let lane = lane_of(inputs)?;
    let flow = Flow::new(alloc, lane)?;
    let block = new_block(alloc, lane.block)?;
    let mut tried = Tried { lane, flow, block };
    let told = tried.make_steps(alloc, inputs, answers);
    drop(tried);
    told
}

/// A flow beside the lane that it was made with, and a block to fill it with.
#[derive(Drop)]
struct Tried {
    lane: Lane,
    flow: Flow,
    block: Vec<u8>,
    ghost made_with: { flow.lane ≡ lane },
}

fn lane_of(inputs: &mut Inputs<'_>) -> Result<Lane, CaseFault>
    ensures { IfOk result (λ lane. IfSome lane.packets (λ cap. cap ≡ packet_cap lane.how.write)) }
{
    let block = inputs.small_number()?;
    let read = value_of(&CONVS, inputs.word()?)?;
    let write = value_of(&CONVS, inputs.word()?)?;
    let readbytes = limit_of(inputs.word()?)?;
    let escape = byte_of(inputs.word()?)?;
    let packets = longest_packet(inputs.word()?, write)?;
    Ok(Lane {
        block,
        how: Convs { read, write },
        readbytes,
        escape,
        packets,
    })
}

fn limit_of(word: &str) -> Result<Option<u64>, CaseFault> {
    match word {
        "-" => Ok(None),
        _ => Ok(Some(word.parse::<u64>()?)),
    }
}

fn byte_of(word: &str) -> Result<Option<u8>, CaseFault> {
    match word {
        "-" => Ok(None),
        _ => Ok(Some(word.parse::<u8>()?)),
    }
}

/// The longest piece that is read for one packet, so that with its line ends converted it fits a datagram.
fn longest_packet(word: &str, write: Conv) -> Result<Option<u32>, CaseFault>
    ensures { IfOk result (λ most. IfSome most (λ cap. cap ≡ packet_cap write)) }
{
    match word {
        "stream" => Ok(None),
        "packets" => Ok(Some(u32::from(write.packet_cap()))),
        _ => Err(CaseFault::NoRow),
    }
}

impl Tried {
    /// Makes all further steps.
    fn make_steps(
        &mut self,
        alloc: Global,
        inputs: &mut Inputs<'_>,
        answers: &mut Answers,
    ) -> Answered {
        for _ in 0..u64::MAX {
            let Some(step) = inputs.step() else {
                break;
            };
            self.make_step(alloc, step, answers)?;
        }
        Ok(())
    }

    fn make_step(&mut self, alloc: Global, step: &str, answers: &mut Answers) -> Answered {
        let (name, value) = step_parts(step);
        match name {
            "fill" => self.fill(bytes_of(alloc, value)?.as_slice())?,
            "block" => self.fill_block(bytes_of(alloc, value)?.as_slice())?,
            "took" => self.let_go(value.parse::<usize>()?)?,
            "pending" => answers.bytes(self.flow.pending()),
            "drain" => answers.bytes(self.drain(alloc)?.as_slice()),
            "room" => answers.number(self.flow.room() as u64),
            "waiting" => answers.number(self.flow.waiting() as u64),
            "over" => answers.truth(self.flow.over()),
            "spent" => answers.truth(self.flow.spent()),
            _ => return Err(CaseFault::NoRow),
        }
        Ok(())
    }

    /// Fills the bytes in, for which there has to be room.
    fn fill(&mut self, bytes: &[u8]) -> Answered {
        if bytes.len() > self.flow.room() {
            return Err(CaseFault::NoRow);
        }
        self.flow.fill(bytes);
        Ok(())
    }

    /// The same for bytes in a block, which the flow may keep.
    fn fill_block(&mut self, bytes: &[u8]) -> Answered {
        let count = bytes.len();
        if count > self.flow.room() || count > self.block.len() {
            return Err(CaseFault::NoRow);
        }
        put_front(&mut self.block, bytes);
        self.flow.fill_block(&mut self.block, count);
        Ok(())
    }

    /// Takes all that waits, piece by piece.
    fn drain(&mut self, alloc: Global) -> Result<Vec<u8>, CaseFault> {
        let mut all = Vec::new(alloc);
        for _ in 0..self.flow.waiting() {
            let piece = self.flow.pending();
            let count = piece.len();
            all.extend_from_slice(piece)?;
            self.flow.took(count);
        }
        Ok(all)
    }

    /// Lets so many bytes go, of a packet all.
    fn let_go(&mut self, count: usize) -> Answered {
        let waiting = self.flow.waiting();
        if count > waiting || (self.lane.packets.is_some() && count != waiting) {
            return Err(CaseFault::NoRow);
        }
        self.flow.took(count);
        Ok(())
    }
}

/// Puts the bytes at the front of the block.
fn put_front(block: &mut Vec<u8>, bytes: &[u8])
    requires { length bytes.now ≤ vec_len block.old }
    ensures { vec_len block.new ≡ vec_len block.old }
{
    block.as_mut_slice()[..bytes.len()].copy_from_slice(bytes);
}
