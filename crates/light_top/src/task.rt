// Tasks: what is done of values alone, once all that a command names was loaded and read.
ghost use Rattle.std.specs.Prelude.{◌≡◌, length, IfOk, IfErr, ◌<◌, ◌^◌};
ghost use Rattle.replay_model.specs.Orders.{Respects};
ghost use Rattle.batch.specs.Prints.{logged_print};
ghost use Rattle.light_top.specs.Logs.{image_print};
ghost use Rattle.light_top.specs.Solving.{IsSolved, IsReplayed, IsDisrespectful, Unsolved, Unreplayed};
ghost use Rattle.light_top.specs.Statuses.{FailsBy};
ghost use Rattle.light_top.specs.Tasks.{IsMatched, IsOfHistory, IsRecording, Means, Fails, rounds_text, respects_line, recording, most_pairs};
ghost use Rattle.races.specs.Texts.{races_text};

use crate::Status;
use crate::arenas::play_arena;
use crate::auditing::audit_log;
use crate::bytes::Bytes;
use crate::crew::{Crew, Workers};
use crate::image::Image;
use crate::jobs::{Jobs, judge_jobs};
use crate::order::Order;
use crate::output::{Output, Saved};
use crate::solving::{count_text, find_order, find_runs, with_order};
use crate::stopping::stop_log;
use crate::words::Name;
use constraints::Problem;
use dep_log::RunLog;
use history::Plain;
use light_base::Memory;
use log_file::{digest_of, write_log};
use log_text::show_text;
use machine::{Inputs, Limits, Program, write_image};
use races::races_text;
use recorder::{Gate, Recorded, record, record_workers};
use schedule_check::{Verdict, check};
use std::alloc::Global;
use std::thread::Threads;
use transcript::text_of;

/// The most open pairs that are printed.
const MOST_PAIRS: u32 = 10_000;

/// What a command is to do.
#[derive(Drop)]
pub enum Task<'a> {
    /// To play a program by turns.
    Play {
        image: Image,
        limits: Limits,
        inputs: Inputs,
    },
    /// To run it on threads, and to save the log.
    Record {
        image: Image,
        log: Name<'a>,
        limits: Limits,
        crew: Option<Crew>,
        inputs: Inputs,
    },
    /// To save the image of a program.
    Assemble {
        program: Program,
        image: Name<'a>,
    },
    /// To print a program as text.
    List {
        image: Image,
    },
    /// To print a log as text.
    Show {
        log: RunLog,
    },
    /// To save a log as it is written today.
    Upgrade {
        log: RunLog,
        name: Name<'a>,
    },
    /// To check an order.
    Check {
        log: RunLog,
        order: Order,
    },
    /// To find an order, and to save it.
    Solve {
        log: RunLog,
        schedule: Name<'a>,
        budget: u32,
    },
    /// To find an order, to play a program by it, and to save it.
    Replay {
        image: Image,
        log: RunLog,
        schedule: Name<'a>,
        budget: u32,
    },
    /// To print which pairs of writes a log leaves open.
    Races {
        log: RunLog,
    },
    /// To show how a thread stands right after a step.
    Until {
        image: Image,
        log: RunLog,
        thread: u8,
        step: u32,
        budget: u32,
    },
    /// To tell whether a log is that of a whole history.
    Audit {
        image: Image,
        log: RunLog,
        budget: u32,
    },
    /// To replay logs, and to print what becomes of each.
    Batch {
        jobs: Jobs,
        budget: u32,
        workers: Workers,
    },
    /// To record an arena and to replay it.
    Arena {
        number: u32,
    },
}

// The transcript of a program whose threads take turns in rounds.
fn play(alloc: Global, program: &Program, limits: Limits, inputs: &Inputs) -> Result<Bytes, Memory>
    requires { length inputs.now ≡ length program.now.threads }
    ensures { IfOk result (λ text. text ≡ rounds_text program.now limits inputs.now) }
{
    let mut plain = Plain::new(alloc, program, limits, inputs)?;
    plain.turns()?;
    let last_values = plain.values()?;
    let reports = plain.into_reports()?;
    let text = text_of(alloc, &reports, &last_values)?;
    Ok(Bytes::of(text))
}

// What is recorded of a history, as an output: its transcript, and its log with the image's digest.
fn recording<'a>(
    alloc: Global,
    recorded: Recorded,
    image: &[u8],
    name: Name<'a>,
) -> Result<Output<'a>, Memory>
    ensures { IfOk result (λ output. output ≡ recording recorded image.now name.entry) }
{
    let (mut log, reports, last_values) = recorded.into_parts();
    log.set_digest(digest_of(image));
    let bytes = Bytes::of(write_log(alloc, &log)?);
    let text = Bytes::of(text_of(alloc, &reports, &last_values)?);
    Ok(Output {
        text,
        saved: Some(Saved { name, bytes }),
    })
}

// Records a program on the workers of a crew; without one, on a worker for each of its threads.
fn record_with<R: Threads + Sync, G: Gate>(
    rt: &R,
    alloc: Global,
    gate: &G,
    program: &Program,
    limits: &Limits,
    crew: &Option<Crew>,
    inputs: &Inputs,
) -> Result<Recorded, Memory>
    requires { length inputs.now ≡ length program.now.threads }
    ensures { IfOk result (IsOfHistory program.now limits.now inputs.now) }
{
    match crew {
        Some(crew) => {
            let workers = crew.workers();
            record_workers(
                rt,
                alloc,
                program,
                limits,
                inputs,
                workers,
                crew.slice(),
                gate,
            )
        }
        None => record(rt, alloc, program, limits, inputs, gate),
    }
}

// Records a program on threads: the transcript and the log of one whole history.
fn record_image<'a, R: Threads + Sync, G: Gate>(
    rt: &R,
    alloc: Global,
    gate: &G,
    image: &Image,
    limits: &Limits,
    crew: &Option<Crew>,
    inputs: &Inputs,
    log: Name<'a>,
) -> Result<Output<'a>, Memory>
    requires { length inputs.now ≡ length image.now.program.threads }
    ensures { IfOk result (IsRecording image.now limits.now inputs.now log.entry) }
{
    let recorded = record_with(rt, alloc, gate, image.program(), limits, crew, inputs)?;
    recording(alloc, recorded, image.bytes(), log)
}

// The line that tells that an order respects a log.
fn respects_line(alloc: Global) -> Result<Bytes, Memory>
    ensures { IfOk result (λ text. text ≡ respects_line) }
{
    let mut text = Vec::new(alloc);
    text.extend_from_slice(b"respects\n")?;
    Ok(Bytes::of(text))
}

// That an order respects a log.
fn judge(alloc: Global, log: &RunLog, order: &Order) -> Result<Bytes, Status>
    requires { length order.now < 2 ^ 32 }
    ensures ok { IfOk result (λ text. Respects log.now order.now × (text ≡ respects_line)) }
    ensures err { IfErr result (FailsBy (IsDisrespectful log.now order.now)) }
{
    match check(alloc, log, order.as_slice())? {
        Verdict::Respects => Ok(respects_line(alloc)?),
        Verdict::Fault(fault) => Err(Status::Disrespects(fault)),
    }
}

// Which pairs of writes a log leaves open.
fn list_races(alloc: Global, log: &RunLog) -> Result<Bytes, Memory>
    ensures { IfOk result (λ text. text ≡ races_text most_pairs log.now) }
{
    let problem = Problem::of(alloc, log)?;
    Ok(Bytes::of(races_text(alloc, &problem, MOST_PAIRS)?))
}

// An order that respects a log, and how many events it has.
fn solve_log<'a>(
    alloc: Global,
    log: &RunLog,
    schedule: Name<'a>,
    budget: u32,
) -> Result<Output<'a>, Status>
    ensures ok { IfOk result (IsSolved log.now schedule.entry) }
    ensures err { IfErr result (FailsBy (Unsolved log.now budget)) }
{
    let order = find_order(alloc, log, budget)?;
    let text = count_text(alloc, &order)?;
    Ok(with_order(alloc, log, &order, schedule, text)?)
}

// An order that respects a log, and the transcript of the runs that have the log.
fn replay_log<'a>(
    alloc: Global,
    image: &Image,
    log: &RunLog,
    schedule: Name<'a>,
    budget: u32,
) -> Result<Output<'a>, Status>
    requires { logged_print log.now ≡ image_print image.now }
    ensures ok { IfOk result (IsReplayed image.now.program log.now schedule.entry) }
    ensures err { IfErr result (FailsBy (Unreplayed image.now.program log.now budget)) }
{
    let (order, text) = find_runs(alloc, image.program(), log, budget)?;
    Ok(with_order(alloc, log, &order, schedule, text)?)
}

/// Does a task.
pub fn perform<'a, R: Threads + Sync, G: Gate>(
    rt: &R,
    alloc: Global,
    gate: &G,
    task: Task<'a>,
) -> Result<Output<'a>, Status>
    requires { IsMatched task }
    ensures ok { IfOk result (Means task.entry) }
    ensures err { IfErr result (FailsBy (Fails task.entry)) }
{
    match task {
        Task::Play {
            image,
            limits,
            inputs,
        } => {
            let text = play(alloc, image.program(), limits, &inputs)?;
            Ok(Output { text, saved: None })
        }
        Task::Record {
            image,
            log,
            limits,
            crew,
            inputs,
        } => {
            let output = record_image(rt, alloc, gate, &image, &limits, &crew, &inputs, log)?;
            Ok(output)
        }
        Task::Assemble { program, image } => {
            let bytes = Bytes::of(write_image(alloc, &program)?);
            Ok(Output {
                text: Bytes::of(Vec::new(alloc)),
                saved: Some(Saved { name: image, bytes }),
            })
        }
        Task::List { image } => {
            let text = Bytes::of(assembler::list(alloc, image.program())?);
            Ok(Output { text, saved: None })
        }
        Task::Show { log } => {
            let text = Bytes::of(show_text(alloc, &log)?);
            Ok(Output { text, saved: None })
        }
        Task::Upgrade { log, name } => {
            let bytes = Bytes::of(write_log(alloc, &log)?);
            Ok(Output {
                text: Bytes::of(Vec::new(alloc)),
                saved: Some(Saved { name, bytes }),
            })
        }
        Task::Check { log, order } => {
            let text = judge(alloc, &log, &order)?;
            Ok(Output { text, saved: None })
        }
        Task::Solve {
            log,
            schedule,
            budget,
        } => solve_log(alloc, &log, schedule, budget),
        Task::Replay {
            image,
            log,
            schedule,
            budget,
        } => replay_log(alloc, &image, &log, schedule, budget),
        Task::Races { log } => {
            let text = list_races(alloc, &log)?;
            Ok(Output { text, saved: None })
        }
        Task::Until {
            image,
            log,
            thread,
            step,
            budget,
        } => {
            let text = stop_log(alloc, image.program(), &log, thread, step, budget)?;
            Ok(Output { text, saved: None })
        }
        Task::Audit { image, log, budget } => {
            let text = audit_log(alloc, image.program(), &log, budget)?;
            Ok(Output { text, saved: None })
        }
        Task::Batch {
            jobs,
            budget,
            workers,
        } => {
            let text = judge_jobs(rt, alloc, gate, &jobs, budget, &workers)?;
            Ok(Output { text, saved: None })
        }
        Task::Arena { number } => {
            let text = play_arena(rt, alloc, gate, number)?;
            Ok(Output { text, saved: None })
        }
    }
}
