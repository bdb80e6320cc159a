// What the files of a command are read as, before anything is done.
ghost use Rattle.std.specs.Prelude.{◌≡◌, ◌<◌, ◌^◌, ◌≤◌, length, Ok, IfOk, IfErr};
ghost use Rattle.replay_model.specs.Logs.{thread_of};
ghost use Rattle.batch.specs.Jobs.{IsShort, most_bytes, most_jobs};
ghost use Rattle.light_top.specs.Images.{as_text, as_inputs};
ghost use Rattle.light_top.specs.Logs.{as_log, as_old_log, as_order, image_print};
ghost use Rattle.batch.specs.Prints.{logged_print};
ghost use Rattle.light_top.specs.Given.{file_in, image_in, text_in, numbers_in, inputs_in, matched, log_in, old_log_in, order_in, of_program, with_step, job_in, jobs_in, Gives, NotRead, NotGiven};

use crate::Status;
use crate::bytes::Bytes;
use crate::image::Image;
use crate::jobs::Jobs;
use crate::list::Pair;
use crate::order::Order;
use crate::words::Name;
use assembler::{AsmFault, AsmKind, assemble};
use batch::{Job, Print, todays_log_in};
use dep_log::RunLog;
use light_base::{Memory, Store, StoreFault};
use log_file::{LogFault, LogKind, SchedFault, SchedKind, read_old, read_schedule};
use machine::{InputFault, InputKind, Inputs, Program, read_inputs};
use std::alloc::Global;

/// The most bytes of a file that is loaded.
const MOST_BYTES: u64 = 8_388_608;

/// The whole bytes of a file. The files stay as they are.
pub fn load<S: Store>(alloc: Global, store: &mut S, name: &Name<'_>) -> Result<Bytes, Status>
    ensures ok { IfOk result (Gives (S.told store.old) (S.told store.new) (λ files. file_in files name.now)) }
    ensures err { IfErr result (NotGiven (S.told store.old) (S.told store.new) (λ files. file_in files name.now)) }
    ensures short { IfOk result (λ bytes. length bytes ≤ most_bytes) }
{
    match store.load(alloc, name.as_str(), MOST_BYTES) {
        Ok(bytes) => Ok(Bytes::of(bytes)),
        Err(StoreFault::Failed) => Err(Status::StoreFault),
        Err(StoreFault::TooLong { taken }) => Err(Status::TooLong { taken }),
        Err(StoreFault::Memory) => Err(Status::Memory),
    }
}

/// The image in a file.
pub fn load_image<S: Store>(alloc: Global, store: &mut S, name: &Name<'_>) -> Result<Image, Status>
    ensures ok { IfOk result (Gives (S.told store.old) (S.told store.new) (λ files. image_in files name.now)) }
    ensures err { IfErr result (NotGiven (S.told store.old) (S.told store.new) (λ files. image_in files name.now)) }
{
    let bytes = load(alloc, store, name)?;
    Image::read(alloc, bytes)
}

// The program that a text says.
fn assemble_text(alloc: Global, text: &[u8]) -> Result<Program, Status>
    requires { length text.now ≤ most_bytes }
    ensures ok { IfOk result (λ program. as_text text.now ≡ Ok program) }
    ensures err { IfErr result (NotRead (as_text text.now)) }
{
    match assemble(alloc, text) {
        Ok(program) => Ok(program),
        Err(
            AsmFault {
                kind: AsmKind::Memory,
                ..
            },
        ) => Err(Status::Memory),
        Err(fault) => Err(Status::AsmRefused(fault)),
    }
}

/// The program of the text in a file.
pub fn load_text<S: Store>(alloc: Global, store: &mut S, name: &Name<'_>) -> Result<Program, Status>
    ensures ok { IfOk result (Gives (S.told store.old) (S.told store.new) (λ files. text_in files name.now)) }
    ensures err { IfErr result (NotGiven (S.told store.old) (S.told store.new) (λ files. text_in files name.now)) }
{
    let bytes = load(alloc, store, name)?;
    assemble_text(alloc, bytes.as_slice())
}

// The inputs that bytes spell.
fn read_numbers(alloc: Global, bytes: &[u8]) -> Result<Inputs, Status>
    ensures ok { IfOk result (λ inputs. as_inputs bytes.now ≡ Ok inputs) }
    ensures err { IfErr result (NotRead (as_inputs bytes.now)) }
{
    match read_inputs(alloc, bytes) {
        Ok(inputs) => Ok(inputs),
        Err(
            InputFault {
                kind: InputKind::Memory,
            },
        ) => Err(Status::Memory),
        Err(fault) => Err(Status::InputRefused(fault)),
    }
}

// The inputs in a file.
fn load_numbers<S: Store>(alloc: Global, store: &mut S, name: &Name<'_>) -> Result<Inputs, Status>
    ensures ok { IfOk result (Gives (S.told store.old) (S.told store.new) (λ files. numbers_in files name.now)) }
    ensures err { IfErr result (NotGiven (S.told store.old) (S.told store.new) (λ files. numbers_in files name.now)) }
{
    let bytes = load(alloc, store, name)?;
    read_numbers(alloc, bytes.as_slice())
}

// As many input lists as a program has threads.
fn matched(inputs: Inputs, threads: usize) -> Result<Inputs, Status>
    requires { threads ≤ 15 }
    ensures ok { IfOk result (λ kept. matched threads inputs ≡ Ok kept) }
    ensures err { IfErr result (NotRead (matched threads inputs)) }
    ensures same { IfOk result (λ kept. length kept ≡ threads) }
{
    let lists = inputs.threads_count();
    if lists == threads {
        Ok(inputs)
    } else {
        Err(Status::WrongInputs {
            program: threads as u8,
            inputs: lists as u8,
        })
    }
}

/// The inputs in a file; without a name, an empty list for each of so many threads.
pub fn load_inputs<S: Store>(
    alloc: Global,
    store: &mut S,
    name: &Option<Name<'_>>,
    threads: usize,
) -> Result<Inputs, Status>
    requires some { 1 ≤ threads }
    requires most { threads ≤ 15 }
    ensures ok { IfOk result (Gives (S.told store.old) (S.told store.new) (λ files. inputs_in files name.now threads)) }
    ensures err { IfErr result (NotGiven (S.told store.old) (S.told store.new) (λ files. inputs_in files name.now threads)) }
    ensures same { IfOk result (λ inputs. length inputs ≡ threads) }
{
    match name {
        Some(name) => {
            let inputs = load_numbers(alloc, store, name)?;
            matched(inputs, threads)
        }
        None => match Inputs::none(alloc, threads as u8) {
            Ok(inputs) => Ok(inputs),
            Err(Memory) => Err(Status::Memory),
        },
    }
}

// The log that bytes tell.
fn read_today(alloc: Global, bytes: &[u8]) -> Result<RunLog, Status>
    requires { length bytes.now ≤ most_bytes }
    ensures ok { IfOk result (λ log. as_log bytes.now ≡ Ok log) }
    ensures err { IfErr result (NotRead (as_log bytes.now)) }
{
    match todays_log_in(alloc, bytes)? {
        Ok(log) => Ok(log),
        Err(fault) => Err(Status::LogRefused(fault)),
    }
}

// The log that bytes tell in version 1 of the format.
fn read_of_old(alloc: Global, bytes: &[u8]) -> Result<RunLog, Status>
    requires { length bytes.now ≤ most_bytes }
    ensures ok { IfOk result (λ log. as_old_log bytes.now ≡ Ok log) }
    ensures err { IfErr result (NotRead (as_old_log bytes.now)) }
{
    match read_old(alloc, bytes) {
        Ok(log) => Ok(log),
        Err(
            LogFault {
                kind: LogKind::Memory,
                ..
            },
        ) => Err(Status::Memory),
        Err(fault) => Err(Status::LogRefused(fault)),
    }
}

/// The log in a file.
pub fn load_log<S: Store>(alloc: Global, store: &mut S, name: &Name<'_>) -> Result<RunLog, Status>
    ensures ok { IfOk result (Gives (S.told store.old) (S.told store.new) (λ files. log_in files name.now)) }
    ensures err { IfErr result (NotGiven (S.told store.old) (S.told store.new) (λ files. log_in files name.now)) }
{
    let bytes = load(alloc, store, name)?;
    read_today(alloc, bytes.as_slice())
}

/// The log of version 1 in a file.
pub fn load_old<S: Store>(alloc: Global, store: &mut S, name: &Name<'_>) -> Result<RunLog, Status>
    ensures ok { IfOk result (Gives (S.told store.old) (S.told store.new) (λ files. old_log_in files name.now)) }
    ensures err { IfErr result (NotGiven (S.told store.old) (S.told store.new) (λ files. old_log_in files name.now)) }
{
    let bytes = load(alloc, store, name)?;
    read_of_old(alloc, bytes.as_slice())
}

// The order whose text the bytes are.
fn read_order(alloc: Global, bytes: &[u8]) -> Result<Order, Status>
    requires { length bytes.now ≤ most_bytes }
    ensures ok { IfOk result (λ order. as_order bytes.now ≡ Ok order) }
    ensures few { IfOk result (λ order. length order < 2 ^ 32) }
    ensures err { IfErr result (NotRead (as_order bytes.now)) }
{
    match read_schedule(alloc, bytes) {
        Ok(events) => Ok(Order::of(events)),
        Err(
            SchedFault {
                kind: SchedKind::Memory,
                ..
            },
        ) => Err(Status::Memory),
        Err(fault) => Err(Status::SchedRefused(fault)),
    }
}

/// The order in a file.
pub fn load_order<S: Store>(alloc: Global, store: &mut S, name: &Name<'_>) -> Result<Order, Status>
    ensures ok { IfOk result (Gives (S.told store.old) (S.told store.new) (λ files. order_in files name.now)) }
    ensures err { IfErr result (NotGiven (S.told store.old) (S.told store.new) (λ files. order_in files name.now)) }
    ensures few { IfOk result (λ order. length order < 2 ^ 32) }
{
    let bytes = load(alloc, store, name)?;
    read_order(alloc, bytes.as_slice())
}

/// A log that is of the image's program.
pub fn of_program(image: &Image, log: RunLog) -> Result<RunLog, Status>
    ensures ok { IfOk result (λ own. of_program image.now log ≡ Ok own) }
    ensures same { IfOk result (λ own. logged_print own ≡ image_print image.now) }
    ensures err { IfErr result (NotRead (of_program image.now log)) }
{
    let logged = Print::of_log(&log);
    let found = image.fingerprint();
    if logged.is(&found) {
        Ok(log)
    } else {
        Err(Status::WrongProgram { logged, found })
    }
}

/// A log whose thread takes this step; step 0 is before the first one.
pub fn with_step(thread: u8, step: u32, log: RunLog) -> Result<RunLog, Status>
    ensures ok { IfOk result (λ there. with_step thread step log ≡ Ok there) }
    ensures same { IfOk result (λ there. there ≡ log) }
    ensures thread { IfOk result (λ there. thread < length there.threads) }
    ensures step { IfOk result (λ there. step ≤ (thread_of there thread).steps) }
    ensures err { IfErr result (NotRead (with_step thread step log)) }
{
    let threads = log.threads().len() as u8;
    if thread >= threads {
        return Err(Status::NoStep { threads, steps: 0 });
    }
    let steps = log.threads()[usize::from(thread)].steps();
    if step <= steps {
        Ok(log)
    } else {
        Err(Status::NoStep { threads, steps })
    }
}

// The job whose files these are.
fn load_job<S: Store>(alloc: Global, store: &mut S, pair: &Pair<'_>) -> Result<Job, Status>
    ensures ok { IfOk result (Gives (S.told store.old) (S.told store.new) (λ files. job_in files pair.now)) }
    ensures err { IfErr result (NotGiven (S.told store.old) (S.told store.new) (λ files. job_in files pair.now)) }
    ensures short { IfOk result IsShort }
{
    let image = load(alloc, store, &pair.image)?;
    let log = load(alloc, store, &pair.log)?;
    Ok(Job::of(image.into_vec(), log.into_vec()))
}

/// The jobs whose files these are, pair after pair, in each the image before the log.
pub fn load_jobs<S: Store>(alloc: Global, store: &mut S, pairs: &[Pair<'_>]) -> Result<Jobs, Status>
    requires some { 1 ≤ length pairs.now }
    requires few { length pairs.now ≤ most_jobs }
    ensures ok { IfOk result (Gives (S.told store.old) (S.told store.new) (λ files. jobs_in files pairs.now)) }
    ensures err { IfErr result (NotGiven (S.told store.old) (S.told store.new) (λ files. jobs_in files pairs.now)) }
{
    let Ok(mut jobs) = Vec::with_capacity(alloc, pairs.len()) else {
        return Err(Status::Memory);
    };
    for pair in pairs {
        jobs.push_reserved(load_job(alloc, store, pair)?);
    }
    Ok(Jobs::of(jobs))
}
