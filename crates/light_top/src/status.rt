// How a command ends, as a number and as a line of text.
ghost use Rattle.std.specs.Prelude.{◌≡◌, IfOk, OnOk, ◌∷◌, [], ◌++◌, decimal, codes};
ghost use Rattle.light_top.specs.Statuses.{code_of, status_line, refusal_line, text_line, input_line, log_line, schedule_line, order_line, difference_line, stray_line, list_line};

use assembler::AsmFault;
use batch::Print;
use light_base::{Memory, put_decimal};
use log_file::{LogFault, SchedFault};
use machine::{ImageFault, InputFault};
use replayer::Difference;
use schedule_check::OrderFault;
use std::alloc::Global;
use stopper::Stray;

#[derive(Clone, Copy, Debug, PartialEq, Eq)]
pub enum Status {
    /// The command was done.
    Ok,
    /// The words are no command.
    Usage,
    /// The store counted a fault.
    StoreFault,
    /// A file has more bytes than are loaded, which is one less than `taken`.
    TooLong { taken: u64 },
    /// The bytes are no image, and this is the first fault.
    ImageRefused(ImageFault),
    /// The text is not in the grammar, and this is its first line at fault.
    AsmRefused(AsmFault),
    /// The bytes are no log, and this is the first fault.
    LogRefused(LogFault),
    /// The log is that of another program: these are the prints of its own and of the image's.
    WrongProgram { logged: Print, found: Print },
    /// No order respects the log.
    NoSchedule,
    /// The search for an order has met more dead ends than the budget.
    Spent,
    /// No runs of the program have the log, and this is the first difference that a replay by an order that respects
    /// the log found.
    Differs(Difference),
    /// The bytes are no schedule, and this is the first fault.
    SchedRefused(SchedFault),
    /// The order does not respect the log, and this is its first fault.
    Disrespects(OrderFault),
    /// The sink counted a fault.
    SinkFault,
    /// The bytes are no inputs, and this is the first fault.
    InputRefused(InputFault),
    /// The program has so many threads, and the inputs so many lists, which is another number.
    WrongInputs { program: u8, inputs: u8 },
    /// No whole history of the program has the log.
    NotLegal,
    /// The log has no such thread or no such step: it has so many threads, and this one so many steps, which are 0 where
    /// it isn't there.
    NoStep { threads: u8, steps: u32 },
    /// No runs of the program have the log, and this is what was amiss first in a play up to the cut of a step, by an
    /// order that respects the log.
    Strays(Stray),
    /// The text is no list of jobs, and this is its first line at fault.
    ListRefused { line: u32 },
    /// A request for memory was refused.
    Memory,
}

impl Status {
    /// The status with which the program ends.
    pub fn code(&self) -> u8
        ensures { result ≡ code_of self.now }
    {
        match self {
            Status::Ok => 0,
            Status::Usage => 2,
            Status::StoreFault => 3,
            Status::TooLong { .. } => 4,
            Status::ImageRefused(_) => 5,
            Status::AsmRefused(_) => 6,
            Status::LogRefused(_) => 7,
            Status::WrongProgram { .. } => 8,
            Status::NoSchedule => 9,
            Status::Spent => 10,
            Status::Differs(_) => 11,
            Status::SchedRefused(_) => 12,
            Status::Disrespects(_) => 13,
            Status::SinkFault => 14,
            Status::InputRefused(_) => 15,
            Status::WrongInputs { .. } => 16,
            Status::NotLegal => 17,
            Status::NoStep { .. } => 18,
            Status::Strays(_) => 19,
            Status::ListRefused { .. } => 20,
            Status::Memory => 70,
        }
    }
}

impl From<Memory> for Status {
    ghost use Rattle.light_top.specs.declared.status.Status.TheVariants.{Memory};

    ghost from_gives = { λ _ status. status ≡ Memory };

    fn from(_: Memory) -> Status {
        Status::Memory
    }
}

// Appends a name and its number.
fn put_field(text: &mut Vec<u8>, name: &[u8], n: u64) -> Result<(), Memory>
    ensures { OnOk result (text.new.items ≡ text.old.items ++ (name.now ++ decimal n)) }
{
    text.extend_from_slice(name)?;
    put_decimal(text, n)
}

fn put_refusal(text: &mut Vec<u8>, kind: u64, thread: u64, at: u64) -> Result<(), Memory>
    ensures { OnOk result (text.new.items ≡ text.old.items ++ refusal_line kind thread at) }
{
    text.extend_from_slice(b"light: image refused")?;
    put_field(text, b" kind ", kind)?;
    put_field(text, b" thread ", thread)?;
    put_field(text, b" at ", at)?;
    text.push(b'\n')?;
    Ok(())
}

fn put_text_refusal(text: &mut Vec<u8>, line: u64, kind: u64) -> Result<(), Memory>
    ensures { OnOk result (text.new.items ≡ text.old.items ++ text_line line kind) }
{
    text.extend_from_slice(b"light: text refused")?;
    put_field(text, b" line ", line)?;
    put_field(text, b" kind ", kind)?;
    text.push(b'\n')?;
    Ok(())
}

fn put_input_refusal(text: &mut Vec<u8>, kind: u64) -> Result<(), Memory>
    ensures { OnOk result (text.new.items ≡ text.old.items ++ input_line kind) }
{
    text.extend_from_slice(b"light: inputs refused")?;
    put_field(text, b" kind ", kind)?;
    text.push(b'\n')?;
    Ok(())
}

fn put_log_refusal(text: &mut Vec<u8>, kind: u64, at: u64) -> Result<(), Memory>
    ensures { OnOk result (text.new.items ≡ text.old.items ++ log_line kind at) }
{
    text.extend_from_slice(b"light: log refused")?;
    put_field(text, b" kind ", kind)?;
    put_field(text, b" at ", at)?;
    text.push(b'\n')?;
    Ok(())
}

fn put_schedule_refusal(text: &mut Vec<u8>, kind: u64, at: u64) -> Result<(), Memory>
    ensures { OnOk result (text.new.items ≡ text.old.items ++ schedule_line kind at) }
{
    text.extend_from_slice(b"light: schedule refused")?;
    put_field(text, b" kind ", kind)?;
    put_field(text, b" at ", at)?;
    text.push(b'\n')?;
    Ok(())
}

// Appends two numbers, and ends the line.
fn put_places(text: &mut Vec<u8>, i: u64, j: u64) -> Result<(), Memory>
    ensures { OnOk result (text.new.items ≡ text.old.items ++ ((codes " at " ++ decimal i) ++ (codes " " ++ decimal j) ++ 10 ∷ [])) }
{
    put_field(text, b" at ", i)?;
    put_field(text, b" ", j)?;
    text.push(b'\n')?;
    Ok(())
}

fn put_order_refusal(text: &mut Vec<u8>, kind: u64, i: u64, j: u64) -> Result<(), Memory>
    ensures { OnOk result (text.new.items ≡ text.old.items ++ order_line kind i j) }
{
    text.extend_from_slice(b"light: order refused")?;
    put_field(text, b" kind ", kind)?;
    put_places(text, i, j)?;
    Ok(())
}

fn put_difference(text: &mut Vec<u8>, thread: u64, entry: u64) -> Result<(), Memory>
    ensures { OnOk result (text.new.items ≡ text.old.items ++ difference_line thread entry) }
{
    text.extend_from_slice(b"light: differs")?;
    put_field(text, b" thread ", thread)?;
    put_field(text, b" entry ", entry)?;
    text.push(b'\n')?;
    Ok(())
}

fn put_stray(text: &mut Vec<u8>, stray: &Stray) -> Result<(), Memory>
    ensures { OnOk result (text.new.items ≡ text.old.items ++ stray_line stray.now) }
{
    text.extend_from_slice(b"light: strays")?;
    put_field(text, b" thread ", u64::from(stray.thread()))?;
    text.push(b'\n')?;
    Ok(())
}

fn put_list_refusal(text: &mut Vec<u8>, line: u64) -> Result<(), Memory>
    ensures { OnOk result (text.new.items ≡ text.old.items ++ list_line line) }
{
    text.extend_from_slice(b"light: list refused")?;
    put_field(text, b" line ", line)?;
    text.push(b'\n')?;
    Ok(())
}

/// The line that tells of a status, with its line feed. Of `Ok` nothing is told.
pub fn status_text(alloc: Global, status: &Status) -> Result<Vec<u8>, Memory>
    ensures { IfOk result (λ text. text.items ≡ status_line status.now) }
{
    let mut text = Vec::new(alloc);
    match status {
        Status::Ok => {}
        Status::Usage => text.extend_from_slice(b"light: usage\n")?,
        Status::StoreFault => text.extend_from_slice(b"light: store fault\n")?,
        Status::TooLong { .. } => text.extend_from_slice(b"light: too long\n")?,
        Status::ImageRefused(fault) => {
            let kind = u64::from(fault.kind.code());
            put_refusal(
                &mut text,
                kind,
                u64::from(fault.thread),
                u64::from(fault.at),
            )?
        }
        Status::AsmRefused(fault) => {
            let kind = u64::from(fault.kind.code());
            put_text_refusal(&mut text, u64::from(fault.line), kind)?
        }
        Status::LogRefused(fault) => {
            let kind = u64::from(fault.kind.code());
            put_log_refusal(&mut text, kind, u64::from(fault.at))?
        }
        Status::WrongProgram { .. } => text.extend_from_slice(b"light: wrong program\n")?,
        Status::NoSchedule => text.extend_from_slice(b"light: no schedule\n")?,
        Status::Spent => text.extend_from_slice(b"light: budget spent\n")?,
        Status::Differs(difference) => {
            let thread = u64::from(difference.thread);
            put_difference(&mut text, thread, u64::from(difference.entry))?
        }
        Status::SchedRefused(fault) => {
            let kind = u64::from(fault.kind.code());
            put_schedule_refusal(&mut text, kind, u64::from(fault.at))?
        }
        Status::Disrespects(fault) => {
            let kind = u64::from(fault.kind.number());
            put_order_refusal(&mut text, kind, u64::from(fault.i), u64::from(fault.j))?
        }
        Status::SinkFault => text.extend_from_slice(b"light: output fault\n")?,
        Status::InputRefused(fault) => {
            put_input_refusal(&mut text, u64::from(fault.kind.code()))?
        }
        Status::WrongInputs { .. } => text.extend_from_slice(b"light: wrong inputs\n")?,
        Status::NotLegal => text.extend_from_slice(b"light: not legal\n")?,
        Status::NoStep { .. } => text.extend_from_slice(b"light: no such step\n")?,
        Status::Strays(stray) => put_stray(&mut text, stray)?,
        Status::ListRefused { line } => put_list_refusal(&mut text, u64::from(*line))?,
        Status::Memory => text.extend_from_slice(b"light: out of memory\n")?,
    }
    Ok(text)
}
