// The task of a command, once all that it names is loaded and read.
ghost use Rattle.std.specs.Prelude.{IfOk, IfErr};
ghost use Rattle.light_top.specs.Tasks.{IsMatched};
ghost use Rattle.light_top.specs.Given.{given, Gives, NotGiven};
ghost use Rattle.light_top.specs.declared.words.Command.TheVariants as command;

use crate::Status;
use crate::crew::{Crew, Workers};
use crate::list::read_list;
use crate::loading::{
    load, load_image, load_inputs, load_jobs, load_log, load_old, load_order, load_text,
    of_program, with_step,
};
use crate::task::Task;
use crate::words::{Command, Name};
use light_base::Store;
use machine::Limits;
use std::alloc::Global;

// To play an image.
fn take_run<'a, S: Store>(
    alloc: Global,
    store: &mut S,
    image: Name<'a>,
    limits: Limits,
    inputs: Option<Name<'a>>,
) -> Result<Task<'a>, Status>
    ensures ok { IfOk result (Gives (S.told store.old) (S.told store.new) (given (command.Run image.entry limits inputs.entry))) }
    ensures err { IfErr result (NotGiven (S.told store.old) (S.told store.new) (given (command.Run image.entry limits inputs.entry))) }
    ensures matched { IfOk result IsMatched }
{
    let image = load_image(alloc, store, &image)?;
    let threads = image.program().threads_count();
    let inputs = load_inputs(alloc, store, &inputs, threads)?;
    Ok(Task::Play {
        image,
        limits,
        inputs,
    })
}

// To record an image.
fn take_record<'a, S: Store>(
    alloc: Global,
    store: &mut S,
    image: Name<'a>,
    log: Name<'a>,
    limits: Limits,
    crew: Option<Crew>,
    inputs: Option<Name<'a>>,
) -> Result<Task<'a>, Status>
    ensures ok { IfOk result (Gives (S.told store.old) (S.told store.new) (given (command.Record image.entry log.entry limits crew inputs.entry))) }
    ensures err { IfErr result (NotGiven (S.told store.old) (S.told store.new) (given (command.Record image.entry log.entry limits crew inputs.entry))) }
    ensures matched { IfOk result IsMatched }
{
    let image = load_image(alloc, store, &image)?;
    let threads = image.program().threads_count();
    let inputs = load_inputs(alloc, store, &inputs, threads)?;
    Ok(Task::Record {
        image,
        log,
        limits,
        crew,
        inputs,
    })
}

// To assemble a text.
fn take_asm<'a, S: Store>(
    alloc: Global,
    store: &mut S,
    text: Name<'a>,
    image: Name<'a>,
) -> Result<Task<'a>, Status>
    ensures ok { IfOk result (Gives (S.told store.old) (S.told store.new) (given (command.Asm text.entry image.entry))) }
    ensures err { IfErr result (NotGiven (S.told store.old) (S.told store.new) (given (command.Asm text.entry image.entry))) }
    ensures matched { IfOk result IsMatched }
{
    let program = load_text(alloc, store, &text)?;
    Ok(Task::Assemble { program, image })
}

// To list an image.
fn take_list<'a, S: Store>(
    alloc: Global,
    store: &mut S,
    image: Name<'a>,
) -> Result<Task<'a>, Status>
    ensures ok { IfOk result (Gives (S.told store.old) (S.told store.new) (given (command.List image.entry))) }
    ensures err { IfErr result (NotGiven (S.told store.old) (S.told store.new) (given (command.List image.entry))) }
    ensures matched { IfOk result IsMatched }
{
    let image = load_image(alloc, store, &image)?;
    Ok(Task::List { image })
}

// To show a log.
fn take_show<'a, S: Store>(alloc: Global, store: &mut S, log: Name<'a>) -> Result<Task<'a>, Status>
    ensures ok { IfOk result (Gives (S.told store.old) (S.told store.new) (given (command.Show log.entry))) }
    ensures err { IfErr result (NotGiven (S.told store.old) (S.told store.new) (given (command.Show log.entry))) }
    ensures matched { IfOk result IsMatched }
{
    let log = load_log(alloc, store, &log)?;
    Ok(Task::Show { log })
}

// To print which pairs of writes a log leaves open.
fn take_races<'a, S: Store>(alloc: Global, store: &mut S, log: Name<'a>) -> Result<Task<'a>, Status>
    ensures ok { IfOk result (Gives (S.told store.old) (S.told store.new) (given (command.Races log.entry))) }
    ensures err { IfErr result (NotGiven (S.told store.old) (S.told store.new) (given (command.Races log.entry))) }
    ensures matched { IfOk result IsMatched }
{
    let log = load_log(alloc, store, &log)?;
    Ok(Task::Races { log })
}

// To write a log of version 1 anew.
fn take_upgrade<'a, S: Store>(
    alloc: Global,
    store: &mut S,
    old: Name<'a>,
    log: Name<'a>,
) -> Result<Task<'a>, Status>
    ensures ok { IfOk result (Gives (S.told store.old) (S.told store.new) (given (command.Upgrade old.entry log.entry))) }
    ensures err { IfErr result (NotGiven (S.told store.old) (S.told store.new) (given (command.Upgrade old.entry log.entry))) }
    ensures matched { IfOk result IsMatched }
{
    let old = load_old(alloc, store, &old)?;
    Ok(Task::Upgrade {
        log: old,
        name: log,
    })
}

// To check an order.
fn take_check<'a, S: Store>(
    alloc: Global,
    store: &mut S,
    log: Name<'a>,
    schedule: Name<'a>,
) -> Result<Task<'a>, Status>
    ensures ok { IfOk result (Gives (S.told store.old) (S.told store.new) (given (command.Check log.entry schedule.entry))) }
    ensures err { IfErr result (NotGiven (S.told store.old) (S.told store.new) (given (command.Check log.entry schedule.entry))) }
    ensures matched { IfOk result IsMatched }
{
    let log = load_log(alloc, store, &log)?;
    let order = load_order(alloc, store, &schedule)?;
    Ok(Task::Check { log, order })
}

// To find an order.
fn take_solve<'a, S: Store>(
    alloc: Global,
    store: &mut S,
    log: Name<'a>,
    schedule: Name<'a>,
    budget: u32,
) -> Result<Task<'a>, Status>
    ensures ok { IfOk result (Gives (S.told store.old) (S.told store.new) (given (command.Solve log.entry schedule.entry budget))) }
    ensures err { IfErr result (NotGiven (S.told store.old) (S.told store.new) (given (command.Solve log.entry schedule.entry budget))) }
    ensures matched { IfOk result IsMatched }
{
    let log = load_log(alloc, store, &log)?;
    Ok(Task::Solve {
        log,
        schedule,
        budget,
    })
}

// To replay a log.
fn take_replay<'a, S: Store>(
    alloc: Global,
    store: &mut S,
    image: Name<'a>,
    log: Name<'a>,
    schedule: Name<'a>,
    budget: u32,
) -> Result<Task<'a>, Status>
    ensures ok { IfOk result (Gives (S.told store.old) (S.told store.new) (given (command.Replay image.entry log.entry schedule.entry budget))) }
    ensures err { IfErr result (NotGiven (S.told store.old) (S.told store.new) (given (command.Replay image.entry log.entry schedule.entry budget))) }
    ensures matched { IfOk result IsMatched }
{
    let image = load_image(alloc, store, &image)?;
    let log = load_log(alloc, store, &log)?;
    let log = of_program(&image, log)?;
    Ok(Task::Replay {
        image,
        log,
        schedule,
        budget,
    })
}

// To show a thread right after a step.
fn take_until<'a, S: Store>(
    alloc: Global,
    store: &mut S,
    image: Name<'a>,
    log: Name<'a>,
    thread: u8,
    step: u32,
    budget: u32,
) -> Result<Task<'a>, Status>
    ensures ok { IfOk result (Gives (S.told store.old) (S.told store.new) (given (command.Until image.entry log.entry thread step budget))) }
    ensures err { IfErr result (NotGiven (S.told store.old) (S.told store.new) (given (command.Until image.entry log.entry thread step budget))) }
    ensures matched { IfOk result IsMatched }
{
    let image = load_image(alloc, store, &image)?;
    let log = load_log(alloc, store, &log)?;
    let log = of_program(&image, log)?;
    let log = with_step(thread, step, log)?;
    Ok(Task::Until {
        image,
        log,
        thread,
        step,
        budget,
    })
}

// To tell whether a log is that of a whole history.
fn take_audit<'a, S: Store>(
    alloc: Global,
    store: &mut S,
    image: Name<'a>,
    log: Name<'a>,
    budget: u32,
) -> Result<Task<'a>, Status>
    ensures ok { IfOk result (Gives (S.told store.old) (S.told store.new) (given (command.Audit image.entry log.entry budget))) }
    ensures err { IfErr result (NotGiven (S.told store.old) (S.told store.new) (given (command.Audit image.entry log.entry budget))) }
    ensures matched { IfOk result IsMatched }
{
    let image = load_image(alloc, store, &image)?;
    let log = load_log(alloc, store, &log)?;
    let log = of_program(&image, log)?;
    Ok(Task::Audit { image, log, budget })
}

// To replay the logs of a list.
fn take_batch<'a, S: Store>(
    alloc: Global,
    store: &mut S,
    list: Name<'a>,
    budget: u32,
    workers: Workers,
) -> Result<Task<'a>, Status>
    ensures ok { IfOk result (Gives (S.told store.old) (S.told store.new) (given (command.Batch list.entry budget workers))) }
    ensures err { IfErr result (NotGiven (S.told store.old) (S.told store.new) (given (command.Batch list.entry budget workers))) }
    ensures matched { IfOk result IsMatched }
{
    let text = load(alloc, store, &list)?;
    let pairs = read_list(alloc, text.as_slice())?;
    let jobs = load_jobs(alloc, store, &pairs)?;
    Ok(Task::Batch {
        jobs,
        budget,
        workers,
    })
}

/// Loads what a command names, and reads it: the task that is to be done. The files stay as they are.
pub fn take_up<'a, S: Store>(
    alloc: Global,
    store: &mut S,
    command: Command<'a>,
) -> Result<Task<'a>, Status>
    ensures ok { IfOk result (Gives (S.told store.old) (S.told store.new) (given command.entry)) }
    ensures err { IfErr result (NotGiven (S.told store.old) (S.told store.new) (given command.entry)) }
    ensures matched { IfOk result IsMatched }
{
    match command {
        Command::Run {
            image,
            limits,
            inputs,
        } => take_run(alloc, store, image, limits, inputs),
        Command::Record {
            image,
            log,
            limits,
            crew,
            inputs,
        } => take_record(alloc, store, image, log, limits, crew, inputs),
        Command::Asm { text, image } => take_asm(alloc, store, text, image),
        Command::List { image } => take_list(alloc, store, image),
        Command::Show { log } => take_show(alloc, store, log),
        Command::Races { log } => take_races(alloc, store, log),
        Command::Upgrade { old, log } => take_upgrade(alloc, store, old, log),
        Command::Check { log, schedule } => take_check(alloc, store, log, schedule),
        Command::Solve {
            log,
            schedule,
            budget,
        } => take_solve(alloc, store, log, schedule, budget),
        Command::Replay {
            image,
            log,
            schedule,
            budget,
        } => take_replay(alloc, store, image, log, schedule, budget),
        Command::Until {
            image,
            log,
            thread,
            step,
            budget,
        } => take_until(alloc, store, image, log, thread, step, budget),
        Command::Audit { image, log, budget } => take_audit(alloc, store, image, log, budget),
        Command::Batch {
            list,
            budget,
            workers,
        } => take_batch(alloc, store, list, budget, workers),
        Command::Arena { number } => Ok(Task::Arena { number }),
    }
}
