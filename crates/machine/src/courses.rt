// The instructions that a thread runs between two memory steps.
ghost use Rattle.std.specs.Prelude.{◌≡◌, ℕ, ◌<◌, ◌≤◌, true, slice_get, Some, None, [], length, take, IfOk, IfSome, OnErr};
ghost use Rattle.machine.specs.Programs.{AreLimits, IsCode};
ghost use Rattle.machine.specs.Inputs.{most_inputs};
ghost use Rattle.machine.specs.Cores.{State, IsState, first_state, is_memory};
ghost use Rattle.machine.specs.Turns.{bounds_of, moved, rested, comes_along, run_along, IsAtMemory, LeadsOn, NamesRegisters, PutsOut, TurnsAlong, Wants};

use crate::local_instr::{Local, compute};
use crate::program::{HALT, Instr, Op};
use light_base::Memory;
use replay_model::{End, Want};

/// The most values that a thread puts out.
const MOST_OUTPUTS: usize = 65_536;

/// What came of an instruction.
#[derive(Clone, Copy)]
pub(crate) enum Turn {
    /// It was local, and the thread goes on at this place.
    Next(usize),
    /// The thread stays before it and wants this.
    Stop(Want),
}

/// A place in a code, how many instructions were finished before it, and the instruction there if it takes a memory step.
#[derive(Clone, Copy)]
pub(crate) struct Way<'a> {
    pub(crate) place: usize,
    pub(crate) instr: u32,
    pub(crate) memory: Option<&'a Instr>,
}

/// Where a thread stopped, and what it wants there.
#[derive(Clone, Copy)]
pub(crate) struct Rest {
    pub(crate) place: usize,
    pub(crate) instr: u32,
    pub(crate) taken: u32,
    pub(crate) doing: Instr,
    pub(crate) wanted: Want,
}

/// What a thread runs between two memory steps, and what bounds it.
#[derive(Clone, Copy)]
pub(crate) struct Course<'a, 'b> {
    pub(crate) code: &'a [Instr],
    pub(crate) inputs: &'b [u32],
    pub(crate) words: usize,
    pub(crate) most_steps: u32,
    pub(crate) most_instr: u32,
    pub(crate) full: bool,
    pub(crate) steps: u32,
}

// What is wanted is pending, and is handed on. Each place that knows what is wanted calls this, so that what it is need not
// be told apart again.
#[inline(always)]
fn put_down(pending: &mut Option<Want>, wanted: Want) -> Want
    ensures pending { pending.new ≡ Some wanted }
    ensures same { result ≡ wanted }
{
    let told = wanted;
    *pending = Some(wanted);
    told
}

impl<'a> Course<'a, '_> {
    // Runs instructions that only compute or jump, as long as they come and the limit leaves some.
    #[inline(always)]
    pub(crate) fn go_along(
        &self,
        registers: &mut [u32; 16],
        mut place: usize,
        mut instr: u32,
    ) -> Way<'a>
        requires code { IsCode self.now.code.now }
        requires bounds { AreLimits (bounds_of self.now) }
        requires state { IsState (moved (first_state 0) registers.old place [] 0 instr 0) }
        ensures same { LeadsOn self.now registers.old place instr registers.new result }
        ensures state { IsState (moved (first_state 0) registers.new result.place [] 0 result.instr 0) }
        ensures memory { IfSome result.memory (λ i. IsAtMemory self.now result i.now) }
    {
        while instr < self.most_instr && place < self.code.len() {
            let i = &self.code[place];
            match compute(registers, place, i) {
                Local::Next(next) => {
                    place = next;
                    instr += 1;
                }
                Local::Memory => {
                    return Way {
                        place,
                        instr,
                        memory: Some(i),
                    };
                }
                Local::Other => break,
            }
        }
        Way {
            place,
            instr,
            memory: None,
        }
    }

    // The memory step of this instruction, or the end that comes before it; it is pending too.
    #[inline(always)]
    pub(crate) fn memory_step(
        &self,
        registers: &[u32; 16],
        i: &Instr,
        pending: &mut Option<Want>,
    ) -> Want
        requires words { self.now.words ≤ 4096 }
        requires fields { NamesRegisters i.now }
        requires memory { is_memory i.now.op ≡ true }
        ensures value { Wants self.now registers.now i.now result }
        ensures pending { pending.new ≡ Some result }
    {
        let address = registers[usize::from(i.b)].wrapping_add(i.imm);
        if address as usize >= self.words {
            return put_down(pending, Want::Ended(End::BadAddress(address)));
        }
        if self.steps >= self.most_steps {
            return put_down(pending, Want::Ended(End::StepsSpent));
        }
        let word = address as u16;
        match i.op {
            Op::Store => put_down(pending, Want::Store(word, registers[usize::from(i.a)])),
            _ if self.full => put_down(pending, Want::Ended(End::EntriesFull)),
            Op::Xchg => put_down(pending, Want::Swap(word, registers[usize::from(i.a)])),
            _ => put_down(pending, Want::Load(word)),
        }
    }

    // Takes the instruction at a place, where it is local; an `Err` comes only from putting out a value.
    fn turn(
        &self,
        registers: &mut [u32; 16],
        place: usize,
        output: &mut Vec<u32>,
        instr: u32,
        taken: &mut u32,
        i: &Instr,
    ) -> Result<Turn, Memory>
        requires words { self.now.words ≤ 4096 }
        requires place { place < 4096 }
        requires inputs { length self.now.inputs.now ≤ most_inputs }
        requires fields { NamesRegisters i.now }
        ensures ok { IfOk result (λ turn. (s : State) →
            TurnsAlong self.now i.now (moved s registers.old place output.old.items self.now.steps instr taken.old)
            turn registers.new output.new.items taken.new) }
        ensures err { OnErr result ((s : State) →
            comes_along self.now (moved s registers.old place output.old.items self.now.steps instr taken.old) (Some i.now) ≡ None) }
        ensures puts { OnErr result (i.now.op ≡ Op.Out) }
        ensures kept { take (length output.old.items) output.new.items ≡ output.old.items }
    {
        match i.op {
            Op::Halt => return Ok(Turn::Stop(Want::Ended(End::Halted))),
            _ if instr >= self.most_instr => {
                return Ok(Turn::Stop(Want::Ended(End::InstrSpent)));
            }
            Op::Out => {
                if output.len() >= MOST_OUTPUTS {
                    return Ok(Turn::Stop(Want::Ended(End::OutputFull)));
                }
                if output.push(registers[usize::from(i.a)]).is_err() {
                    return Err(Memory);
                }
            }
            Op::Input => {
                let at = *taken as usize;
                if at >= self.inputs.len() {
                    return Ok(Turn::Stop(Want::Ended(End::InputEmpty)));
                }
                registers[usize::from(i.a)] = self.inputs[at];
                *taken += 1;
            }
            Op::Load | Op::Store | Op::Xchg | Op::Cas => {
                let mut pending = None;
                return Ok(Turn::Stop(self.memory_step(registers, i, &mut pending)));
            }
            _ => match compute(registers, place, i) {
                Local::Next(next) => return Ok(Turn::Next(next)),
                Local::Memory | Local::Other => unreachable!(),
            },
        }
        Ok(Turn::Next(place + 1))
    }

    // Runs local instructions until the thread stops; an `Err` comes only where it puts out a value before that.
    pub(crate) fn run(
        &self,
        registers: &mut [u32; 16],
        mut place: usize,
        output: &mut Vec<u32>,
        mut instr: u32,
        mut taken: u32,
    ) -> Result<Rest, Memory>
        requires words { self.now.words ≤ 4096 }
        requires code { IsCode self.now.code.now }
        requires inputs { length self.now.inputs.now ≤ most_inputs }
        ensures ok { IfOk result (λ rest. (s : State) →
            run_along self.now (moved s registers.old place output.old.items self.now.steps instr taken) ≡
            rested s registers.new output.new.items self.now.steps rest) }
        ensures err { OnErr result ((s : State) →
            PutsOut self.now (moved s registers.old place output.old.items self.now.steps instr taken)) }
        ensures kept { take (length output.old.items) output.new.items ≡ output.old.items }
    {
        while place < self.code.len() {
            let i = &self.code[place];
            match self.turn(registers, place, output, instr, &mut taken, i)? {
                Turn::Next(next) => {
                    place = next;
                    instr += 1;
                }
                Turn::Stop(wanted) => {
                    return Ok(Rest {
                        place,
                        instr,
                        taken,
                        doing: *i,
                        wanted,
                    });
                }
            }
        }
        Ok(Rest {
            place,
            instr,
            taken,
            doing: HALT,
            wanted: Want::Ended(End::Halted),
        })
    }
}
