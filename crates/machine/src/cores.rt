// One thread of a program: its registers and its place, and what it wants of the memory next.
ghost use Rattle.std.specs.Prelude.{◌≡◌, ◌<◌, ◌≤◌, true, false, Some, None, [], length, IfOk, OnOk, OnErr, IsSome, IsSomeAnd, option_and_then};
ghost use Rattle.replay_model.specs.Steps.{reads, has_ended};
ghost use Rattle.machine.specs.Inputs.{most_inputs};
ghost use Rattle.machine.specs.Programs.{most_steps};
ghost use Rattle.machine.specs.Cores.{first_state, run_of, second_wanted, settled, with_register, told, compared, exchanged};
ghost use Rattle.machine.specs.Cores.{cas_found, pending_want, step_done, took, end_of, report_of, is_store};
ghost use Rattle.machine.specs.Turns.{IsCourse, IsUnderWay};

use crate::courses::Course;
use crate::program::{HALT, Instr, Limits, Op, Program};
use light_base::{Cell, Memory, Tag};
use replay_model::{End, Want};
use std::alloc::Global;
use std::marker::Model;

/// How a thread ended, and what it did.
#[derive(Debug, Drop)]
pub struct RunReport {
    end: End,
    steps: u32,
    instr: u32,
    output: Vec<u32>,
    taken: u32,
}

impl Model for RunReport {
    ghost use Rattle.machine.specs.Cores.{Report};

    ghost Value = { Report };

    ghost view = { λ r. record { end = r.end; steps = r.steps; instr = r.instr; output = r.output.items; taken = r.taken } };
}

/// What the load of a compare-exchange saw, and its second step expects to find again.
#[derive(Clone, Copy, Debug)]
pub(crate) struct Expected {
    word: u16,
    tag: Tag,
}

/// The state of one thread.
#[derive(Debug, Drop)]
pub struct Core {
    thread: u8,
    registers: [u32; 16],
    place: usize,
    output: Vec<u32>,
    steps: u32,
    taken: u32,
    // Not beside `steps`: both go up at each memory step, and one read of 64 bits would wait for the store of its half.
    instr: u32,
    doing: Instr,
    expected: Option<Expected>,
    pending: Option<Want>,
}

impl Model for Core {
    ghost use Rattle.machine.specs.Cores.{State, IsState};

    ghost Value = { State };

    ghost view = { λ c. record {
      thread = c.thread;
      registers = c.registers;
      place = c.place;
      output = c.output.items;
      steps = c.steps;
      instr = c.instr;
      taken = c.taken;
      doing = c.doing;
      expected = c.expected;
      pending = c.pending;
    } };

    ghost invariant = { λ c. IsState (record {
      thread = c.thread;
      registers = c.registers;
      place = c.place;
      output = c.output.items;
      steps = c.steps;
      instr = c.instr;
      taken = c.taken;
      doing = c.doing;
      expected = c.expected;
      pending = c.pending;
    }) };
}

impl Core {
    /// A thread at its start: all registers are 0, and nothing is pending.
    pub fn new(alloc: Global, thread: u8) -> Core
        requires { thread ≤ 14 }
        ensures { result ≡ first_state thread }
    {
        Core {
            thread,
            registers: [0; 16],
            place: 0,
            output: Vec::new(alloc),
            steps: 0,
            instr: 0,
            taken: 0,
            doing: HALT,
            expected: None,
            pending: None,
        }
    }

    /// Goes on as `go_with` does with an empty input list: an `in` ends the thread.
    pub fn go(&mut self, program: &Program, limits: &Limits, full: bool) -> Result<Want, Memory>
        requires { self.old.thread < length program.now.threads }
        ensures ok { IfOk result (λ wanted. (self.new ≡ settled program.now limits.now [] full self.old) × (self.new.pending ≡ Some wanted)) }
        ensures err { OnErr result (self.new ≡ self.old) }
        ensures memory { OnErr result (length self.old.output < length (settled program.now limits.now [] full self.old).output) }
    {
        self.go_with(program, limits, &[], full)
    }

    /// Runs the instructions that touch no shared word, up to the next memory step or the end, which is then pending;
    /// with something pending already, answers that and changes nothing. `inputs` is the thread's input list, the same at
    /// each call, of at most 65,536 numbers; `full` says that the thread's log has as many entries as it may have. An
    /// `Err` comes only where these instructions put out a value, and then all is as before.
    pub fn go_with(
        &mut self,
        program: &Program,
        limits: &Limits,
        inputs: &[u32],
        full: bool,
    ) -> Result<Want, Memory>
        requires thread { self.old.thread < length program.now.threads }
        requires inputs { length inputs.now ≤ most_inputs }
        ensures ok { IfOk result (λ wanted. (self.new ≡ settled program.now limits.now inputs.now full self.old) × (self.new.pending ≡ Some wanted)) }
        ensures err { OnErr result (self.new ≡ self.old) }
        ensures memory { OnErr result (length self.old.output < length (settled program.now limits.now inputs.now full self.old).output) }
    {
        let (registers, place, instr) = (self.registers, self.place, self.instr);
        match self.advance(program, limits, inputs, full) {
            Ok(wanted) => Ok(wanted),
            Err(Memory) => {
                self.registers = registers;
                self.place = place;
                self.instr = instr;
                Err(Memory)
            }
        }
    }

    /// Goes on as `go_with` does, but keeps no copy of the registers: after an `Err` some of the instructions may have
    /// been run, none of which put out a value, and the next call goes on from there.
    #[inline(always)]
    pub fn advance(
        &mut self,
        program: &Program,
        limits: &Limits,
        inputs: &[u32],
        full: bool,
    ) -> Result<Want, Memory>
        requires thread { self.old.thread < length program.now.threads }
        requires inputs { length inputs.now ≤ most_inputs }
        ensures ok { IfOk result (λ wanted. (self.new ≡ settled program.now limits.now inputs.now full self.old) × (self.new.pending ≡ Some wanted)) }
        ensures err { OnErr result (IsUnderWay program.now limits.now inputs.now full self.old self.new) }
        ensures memory { OnErr result (length self.old.output < length (settled program.now limits.now inputs.now full self.old).output) }
    {
        if let Some(wanted) = self.pending {
            return Ok(wanted);
        }
        match self.expected {
            Some(expected) => Ok(self.go_on(limits, full, expected)),
            None => self.run(program, limits, inputs, full),
        }
    }

    // Comes to the second step of a compare-exchange, or to the end before it.
    fn go_on(&mut self, limits: &Limits, full: bool, expected: Expected) -> Want
        requires { self.old.expected ≡ Some expected }
        ensures state { self.new ≡ record self.old { pending = Some (second_wanted limits.now full self.old expected) } }
        ensures value { result ≡ second_wanted limits.now full self.old expected }
    {
        let wanted = self.second_wanted(limits, full, expected);
        let told = wanted;
        self.pending = Some(wanted);
        told
    }

    // The second step of a compare-exchange, or the end before it.
    fn second_wanted(&self, limits: &Limits, full: bool, expected: Expected) -> Want
        requires { self.now.expected ≡ Some expected }
        ensures value { result ≡ second_wanted limits.now full self.now expected }
        ensures room { has_ended result ≡ false → self.now.steps < most_steps }
    {
        if self.steps >= limits.steps() {
            return Want::Ended(End::StepsSpent);
        }
        if full {
            return Want::Ended(End::EntriesFull);
        }
        let value = self.registers[usize::from(self.doing.c)];
        Want::Cond(expected.word, expected.tag, value)
    }

    // What the thread runs, and what bounds it.
    #[inline(always)]
    fn course<'a, 'b>(
        &self,
        program: &'a Program,
        limits: &Limits,
        inputs: &'b [u32],
        full: bool,
    ) -> Course<'a, 'b>
        requires thread { self.now.thread < length program.now.threads }
        requires inputs { length inputs.now ≤ most_inputs }
        ensures { IsCourse program.now limits.now inputs.now full self.now result }
    {
        Course {
            code: program.threads(usize::from(self.thread)),
            inputs,
            words: program.words().len(),
            most_steps: limits.steps(),
            most_instr: limits.instr(),
            full,
            steps: self.steps,
        }
    }

    // Runs local instructions up to the next memory step or the end, those that only compute or jump in one go. Where an
    // output is refused, those before the first one that is neither were run.
    #[inline(always)]
    fn run(
        &mut self,
        program: &Program,
        limits: &Limits,
        inputs: &[u32],
        full: bool,
    ) -> Result<Want, Memory>
        requires thread { self.old.thread < length program.now.threads }
        requires inputs { length inputs.now ≤ most_inputs }
        requires fresh { self.old.expected ≡ None }
        requires none { self.old.pending ≡ None }
        ensures ok { IfOk result (λ wanted. (self.new ≡ run_of program.now limits.now inputs.now full self.old) × (self.new.pending ≡ Some wanted)) }
        ensures err { OnErr result (IsUnderWay program.now limits.now inputs.now full self.old self.new) }
        ensures memory { OnErr result (length self.old.output < length (run_of program.now limits.now inputs.now full self.old).output) }
    {
        let course = self.course(program, limits, inputs, full);
        let way = course.go_along(&mut self.registers, self.place, self.instr);
        self.place = way.place;
        self.instr = way.instr;
        let Some(i) = way.memory else {
            if self.run_on(program, limits, inputs, full).is_err() {
                return Err(Memory);
            }
            return Ok(self.wanted());
        };
        let course = self.course(program, limits, inputs, full);
        self.doing = *i;
        Ok(course.memory_step(&self.registers, i, &mut self.pending))
    }

    // What is pending.
    #[inline(always)]
    fn wanted(&self) -> Want
        requires { IsSome self.now.pending }
        ensures { self.now.pending ≡ Some result }
    {
        match self.pending {
            Some(wanted) => wanted,
            None => unreachable!(),
        }
    }

    // Runs local instructions one by one up to the next memory step or the end.
    #[inline(never)]
    fn run_on(
        &mut self,
        program: &Program,
        limits: &Limits,
        inputs: &[u32],
        full: bool,
    ) -> Result<(), Memory>
        requires thread { self.old.thread < length program.now.threads }
        requires inputs { length inputs.now ≤ most_inputs }
        requires fresh { self.old.expected ≡ None }
        requires none { self.old.pending ≡ None }
        ensures ok { OnOk result ((self.new ≡ run_of program.now limits.now inputs.now full self.old) × IsSome self.new.pending) }
        ensures err { OnErr result (self.new ≡ self.old) }
        ensures memory { OnErr result (length self.old.output < length (run_of program.now limits.now inputs.now full self.old).output) }
    {
        let course = self.course(program, limits, inputs, full);
        let registers = self.registers;
        let outputs = self.output.len();
        match course.run(
            &mut self.registers,
            self.place,
            &mut self.output,
            self.instr,
            self.taken,
        ) {
            Ok(rest) => {
                self.place = rest.place;
                self.instr = rest.instr;
                self.taken = rest.taken;
                self.doing = rest.doing;
                self.pending = Some(rest.wanted);
                Ok(())
            }
            Err(Memory) => {
                self.registers = registers;
                self.output.truncate(outputs);
                Err(Memory)
            }
        }
    }

    /// Takes the cell that the pending reading step found; nothing is pending afterwards. A conditional write has won
    /// exactly where the cell's tag is the one that it expects.
    #[inline(always)]
    pub fn found(&mut self, cell: Cell)
        requires { IsSomeAnd self.old.pending (λ wanted. reads wanted ≡ true) }
        ensures { self.new ≡ took self.old (Some cell) }
    {
        if self.doing.op == Op::Cas {
            self.cas_found(cell);
        } else {
            self.give(cell.value);
            self.step_done();
        }
    }

    // The pending step of a compare-exchange found this cell.
    #[inline(never)]
    fn cas_found(&mut self, cell: Cell)
        requires { IsSomeAnd self.old.pending (λ wanted. has_ended wanted ≡ false) }
        ensures { self.new ≡ cas_found self.old (pending_want self.old) cell }
    {
        match &self.pending {
            Some(Want::Load(word)) => {
                let word = *word;
                self.compared(word, cell)
            }
            Some(Want::Cond(_, seen, _)) => {
                let seen = *seen;
                self.exchanged(seen, cell)
            }
            _ => {
                self.give(cell.value);
                self.step_done();
            }
        }
    }

    /// The pending store was made; nothing is pending afterwards.
    #[inline(always)]
    pub fn stored(&mut self)
        requires { IsSomeAnd self.old.pending (λ wanted. is_store wanted ≡ true) }
        ensures { self.new ≡ took self.old None }
    {
        self.step_done();
    }

    // The load of a compare-exchange found this cell in a word: the value of register a leaves the second step to be
    // taken, another one ends the instruction.
    fn compared(&mut self, word: u16, cell: Cell)
        requires { IsSomeAnd self.old.pending (λ wanted. has_ended wanted ≡ false) }
        ensures { self.new ≡ compared self.old word cell }
    {
        if cell.value == self.registers[usize::from(self.doing.a)] {
            self.steps += 1;
            self.expected = Some(Expected {
                word,
                tag: cell.tag,
            });
            self.pending = None;
        } else {
            self.give(cell.value);
            self.cas_done(0);
        }
    }

    // The second step of a compare-exchange found this cell, and wins where the tag that was seen still stands there.
    fn exchanged(&mut self, seen: Tag, cell: Cell)
        requires { IsSomeAnd self.old.pending (λ wanted. has_ended wanted ≡ false) }
        ensures { self.new ≡ exchanged self.old seen cell }
    {
        if cell.tag.writer() == seen.writer() {
            self.cas_done(1);
        } else {
            self.give(cell.value);
            self.cas_done(2);
        }
    }

    // A compare-exchange is done, and register 15 tells how it went.
    fn cas_done(&mut self, how: u32)
        requires { IsSomeAnd self.old.pending (λ wanted. has_ended wanted ≡ false) }
        ensures { self.new ≡ step_done (told self.old how) }
    {
        self.registers[15] = how;
        self.step_done();
    }

    // Register a of the pending step's instruction becomes a value.
    fn give(&mut self, value: u32)
        requires { IsSomeAnd self.old.pending (λ wanted. has_ended wanted ≡ false) }
        ensures { self.new ≡ with_register self.old self.old.doing.a value }
    {
        self.registers[usize::from(self.doing.a)] = value;
    }

    // The pending memory step was taken, and with it its instruction is done.
    fn step_done(&mut self)
        requires { IsSomeAnd self.old.pending (λ wanted. has_ended wanted ≡ false) }
        ensures { self.new ≡ step_done self.old }
    {
        self.place += 1;
        self.steps += 1;
        self.instr += 1;
        self.expected = None;
        self.pending = None;
    }

    /// The thread's number.
    pub fn thread(&self) -> u8
        ensures { result ≡ self.now.thread }
    {
        self.thread
    }

    /// How many memory steps it has taken.
    pub fn steps(&self) -> u32
        ensures { result ≡ self.now.steps }
    {
        self.steps
    }

    /// How many instructions it has finished.
    pub fn instr(&self) -> u32
        ensures { result ≡ self.now.instr }
    {
        self.instr
    }

    /// How many numbers of its input list it has taken.
    pub fn taken(&self) -> u32
        ensures { result ≡ self.now.taken }
    {
        self.taken
    }

    /// What it has put out.
    pub fn outputs(&self) -> &[u32]
        ensures { result.now ≡ self.now.output }
    {
        &self.output
    }

    /// The values of its registers.
    pub fn registers(&self) -> &[u32; 16]
        ensures { result.now ≡ self.now.registers }
    {
        &self.registers
    }

    /// How it ended; None until its end is pending.
    pub fn end(&self) -> Option<End>
        ensures { result ≡ option_and_then end_of self.now.pending }
    {
        match self.pending {
            Some(Want::Ended(end)) => Some(end),
            _ => None,
        }
    }

    /// What a thread that has ended reports.
    pub fn report(self) -> RunReport
        requires { IsSome (option_and_then end_of self.pending) }
        ensures { result ≡ report_of self }
    {
        let Core {
            pending,
            steps,
            instr,
            taken,
            output,
            ..
        } = self;
        let Some(Want::Ended(end)) = pending else {
            unreachable!()
        };
        RunReport {
            end,
            steps,
            instr,
            output,
            taken,
        }
    }
}

impl RunReport {
    /// How the thread ended.
    pub fn end(&self) -> End
        ensures { result ≡ self.now.end }
    {
        self.end
    }

    /// How many memory steps it took.
    pub fn steps(&self) -> u32
        ensures { result ≡ self.now.steps }
    {
        self.steps
    }

    /// How many instructions it finished.
    pub fn instr(&self) -> u32
        ensures { result ≡ self.now.instr }
    {
        self.instr
    }

    /// What it put out.
    pub fn output(&self) -> &[u32]
        ensures { result.now ≡ self.now.output }
    {
        &self.output
    }

    /// How many input numbers it took.
    pub fn taken(&self) -> u32
        ensures { result ≡ self.now.taken }
    {
        self.taken
    }

    /// The end, the numbers of memory steps and of instructions, the output, and the number of input numbers taken.
    pub fn into_parts(self) -> (End, u32, u32, Vec<u32>, u32)
        ensures end { result.0 ≡ self.end }
        ensures steps { result.1 ≡ self.steps }
        ensures instr { result.2 ≡ self.instr }
        ensures output { result.3.items ≡ self.output }
        ensures taken { result.4 ≡ self.taken }
    {
        (self.end, self.steps, self.instr, self.output, self.taken)
    }
}
