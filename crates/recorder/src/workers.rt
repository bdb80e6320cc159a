// Hands are dealt out to workers, whose threads run side by side.
ghost use Rattle.std.specs.Prelude.{◌≡◌, ◌%◌, ◌<◌, ◌≤◌, [], All, IfOk, length, map, replicate};
ghost use Rattle.std.specs.List.{range_with_len};
ghost use Rattle.std.specs.Thread.{IsSync};
ghost use Rattle.recorder.specs.Gathered.{thread_in, thread_of_hand};
ghost use Rattle.recorder.specs.Grouped.{AreDone, AreReady, CameOfGroups, MayRun, hands_in, shares, threads_in, threads_of};

use crate::Gate;
use crate::groups::run_group;
use crate::thread_runs::Finished;
use light_base::Memory;
use machine::{Inputs, Limits, Program};
use std::alloc::Global;
use std::thread::{Threads, join};
use tagged_words::{Hand, Words};

// Whose thread this is.
fn worker_of(thread: u8, workers: u8) -> usize
    requires { 1 ≤ workers }
    ensures { result ≡ thread % workers }
{
    usize::from(thread % workers)
}

// No hand for each worker.
fn no_hands(alloc: Global, workers: u8) -> Result<Vec<Vec<Hand>>, Memory>
    ensures { IfOk result (λ groups. map hands_in groups.items ≡ replicate workers []) }
{
    let mut groups = Vec::with_capacity(alloc, usize::from(workers))?;
    for _ in 0..workers {
        groups.push(Vec::new(alloc))?;
    }
    Ok(groups)
}

// Deals the hands out, in their order.
pub(crate) fn dealt(alloc: Global, hands: Vec<Hand>, workers: u8) -> Result<Vec<Vec<Hand>>, Memory>
    requires { 1 ≤ workers }
    ensures { IfOk result (λ groups. map hands_in groups.items ≡ shares thread_of_hand workers hands.items) }
{
    let mut groups = no_hands(alloc, workers)?;
    for hand in hands {
        groups[worker_of(hand.thread(), workers)].push(hand)?;
    }
    Ok(groups)
}

// One worker's threads at most.
fn run_one<G: Gate>(
    alloc: Global,
    words: &Words,
    mut groups: Vec<Vec<Hand>>,
    program: &Program,
    limits: &Limits,
    inputs: &Inputs,
    slice: u32,
    gate: &G,
) -> Result<Vec<Vec<Finished>>, Memory>
    requires few { length groups.items < 2 }
    requires ready { All (AreReady words.now program.now) groups.items }
    requires words { length words.now.start.initial ≡ length program.now.words }
    requires listed { length inputs.now ≡ length program.now.threads }
    requires slice { 1 ≤ slice }
    ensures each { IfOk result (λ all. All (AreDone words.now program.now limits.now inputs.now) all.items) }
    ensures threads { IfOk result (λ all. map threads_in all.items ≡ map threads_of groups.items) }
{
    let mut all = Vec::new(alloc);
    let Some(hands) = groups.pop() else {
        return Ok(all);
    };
    let Ok(finished) = run_group(alloc, words, hands, program, limits, inputs, slice, gate) else {
        return Err(Memory);
    };
    all.push(finished)?;
    Ok(all)
}

// Each group runs on a worker of its own, by halves of the groups.
pub(crate) fn run_groups<R: Threads + Sync, G: Gate>(
    rt: &R,
    alloc: Global,
    words: &Words,
    mut groups: Vec<Vec<Hand>>,
    program: &Program,
    limits: &Limits,
    inputs: &Inputs,
    slice: u32,
    gate: &G,
) -> Result<Vec<Vec<Finished>>, Memory>
    requires ready { All (AreReady words.now program.now) groups.items }
    requires words { length words.now.start.initial ≡ length program.now.words }
    requires listed { length inputs.now ≡ length program.now.threads }
    requires slice { 1 ≤ slice }
    ensures each { IfOk result (λ all. All (AreDone words.now program.now limits.now inputs.now) all.items) }
    ensures threads { IfOk result (λ all. map threads_in all.items ≡ map threads_of groups.items) }
{
    if groups.len() < 2 {
        return run_one(alloc, words, groups, program, limits, inputs, slice, gate);
    }
    let half = groups.len() / 2;
    let others = groups.split_off(half)?;
    let (front, back) = join(
        rt,
        move || -> Result<Vec<Vec<Finished>>, Memory>
            requires { IsSync R.row × IsSync G.row × MayRun words.now program.now inputs.now slice groups.items }
            ensures each { IfOk result (λ all. All (AreDone words.entry.now program.entry.now limits.entry.now inputs.entry.now) all.items) }
            ensures threads { IfOk result (λ all. map threads_in all.items ≡ map threads_of groups.items) }
        {
            run_groups(
                rt, alloc, words, groups, program, limits, inputs, slice, gate,
            )
        },
        move || -> Result<Vec<Vec<Finished>>, Memory>
            requires { IsSync R.row × IsSync G.row × MayRun words.now program.now inputs.now slice others.items }
            ensures each { IfOk result (λ all. All (AreDone words.entry.now program.entry.now limits.entry.now inputs.entry.now) all.items) }
            ensures threads { IfOk result (λ all. map threads_in all.items ≡ map threads_of others.items) }
        {
            run_groups(
                rt, alloc, words, others, program, limits, inputs, slice, gate,
            )
        },
    );
    let mut all = front?;
    let mut more = back?;
    all.append(&mut more)?;
    Ok(all)
}

// What comes of so many threads, in their order, from that of the workers.
pub(crate) fn collected(
    alloc: Global,
    mut groups: Vec<Vec<Finished>>,
    workers: u8,
    threads: u8,
) -> Result<Vec<Finished>, Memory>
    requires workers { 1 ≤ workers }
    requires shared { map threads_in groups.items ≡ shares (λ t. t) workers (range_with_len 0 threads) }
    ensures each { IfOk result (λ all. CameOfGroups groups.items all.items) }
    ensures threads { IfOk result (λ all. map thread_in all.items ≡ range_with_len 0 threads) }
{
    let mut all = Vec::with_capacity(alloc, usize::from(threads))?;
    for thread in (0..threads).rev() {
        let Some(finished) = groups[worker_of(thread, workers)].pop() else {
            unreachable!()
        };
        all.push(finished)?;
    }
    all.reverse();
    Ok(all)
}
