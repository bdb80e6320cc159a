// Threads that take turns, and run to their ends at shared words.
ghost use Rattle.std.specs.Prelude.{◌≡◌, ◌+◌, ◌≤◌, ◌⊎◌, ◌++◌, [], All, IfOk, IfErr, OnOk, OnErr, length, map, reverse, vec_len, vec_capacity};
ghost use Rattle.std.specs.List.{Any};
ghost use Rattle.tagged_words.specs.Hands.{IsOf};
ghost use Rattle.recorder.specs.Running.{IsAtEnd, PutsOut, TookNoStep};
ghost use Rattle.recorder.specs.Gathered.{HasBegunIn, IsDone, IsReady, hand_in, thread_in, thread_of_hand};
ghost use Rattle.recorder.specs.Grouped.{AreSame, CameOf, HaveBegun, IsAtStart, MayPutOut, RanInRounds, RunsIn, TookTurns, WentInRounds, hand_of};

use crate::Gate;
use crate::runner::Runner;
use crate::thread_runs::{Broken, Finished};
use light_base::Memory;
use machine::{Inputs, Limits, Program};
use std::alloc::Global;
use std::marker::Model;
use tagged_words::{Hand, Words};

/// The hands of threads for which no memory was found, in the order in which they were handed in.
#[derive(Drop)]
pub struct BrokenGroup {
    hands: Vec<Hand>,
}

impl Model for BrokenGroup {
    ghost use Rattle.std.specs.Prelude.{List};
    ghost use Rattle.tagged_words.specs.Views.{Progress};

    ghost Value = { List Progress };

    ghost view = { λ b. b.hands.items };
}

impl BrokenGroup {
    /// The hands.
    pub fn hands(&self) -> &[Hand]
        ensures { result.now ≡ self.now }
    {
        &self.hands
    }

    /// The hands, to be kept.
    pub fn into_parts(self) -> Vec<Hand>
        ensures { result.items ≡ self }
    {
        self.hands
    }
}

// The hands move to the thread that waits for them.
fn crosses(broken: BrokenGroup) -> BrokenGroup {
    is_moved(broken)
}

fn is_moved<T: Send>(value: T) -> T {
    value
}

// The hands of these and those of the runners, which stand the last one first.
fn hands_back(mut hands: Vec<Hand>, mut runners: Vec<Runner<'_>>) -> Vec<Hand>
    requires { vec_len hands + vec_len runners ≤ vec_capacity hands }
    ensures order { result.items ≡ hands.items ++ reverse (map hand_of runners.entry.items) }
    ensures begun { HaveBegun runners.entry.items hands.items result.items }
{
    while let Some(runner) = runners.pop() {
        hands.push_reserved(runner.into_hand());
    }
    hands
}

// The threads of these hands at their start, the last one first, and the list that the hands have left.
fn start_all<'a>(
    alloc: Global,
    words: &'a Words,
    mut hands: Vec<Hand>,
    program: &'a Program,
    limits: &'a Limits,
    inputs: &'a Inputs,
) -> Result<(Vec<Runner<'a>>, Vec<Hand>), BrokenGroup>
    requires ready { All (IsReady words.now program.now) hands.items }
    requires words { length words.now.start.initial ≡ length program.now.words }
    requires listed { length inputs.now ≡ length program.now.threads }
    ensures each { IfOk result (λ r. All (RunsIn words.now program.now limits.now inputs.now) r.0.items) }
    ensures starts { IfOk result (λ r. All (IsAtStart program.now limits.now inputs.now) r.0.items) }
    ensures order { IfOk result (λ r. reverse (map hand_of r.0.items) ≡ hands.items) }
    ensures left { IfOk result (λ r. (r.1.items ≡ []) × (vec_len r.0 ≤ vec_capacity r.1)) }
    ensures err { IfErr result (λ b. b ≡ hands.items) }
{
    let Ok(mut runners) = Vec::with_capacity(alloc, hands.len()) else {
        return Err(BrokenGroup { hands });
    };
    while let Some(hand) = hands.pop() {
        let list = inputs.threads(usize::from(hand.thread()));
        match Runner::new(alloc, words, hand, program, limits, list) {
            Ok(runner) => runners.push_reserved(runner),
            Err(Broken { hand }) => {
                hands.push_reserved(hand);
                return Err(BrokenGroup {
                    hands: hands_back(hands, runners),
                });
            }
        }
    }
    Ok((runners, hands))
}

// A turn of each thread that has not ended, from the last of the list to the first. Whether one may be left that has not.
fn run_round<G: Gate>(runners: &mut Vec<Runner<'_>>, slice: u32, gate: &G) -> Result<bool, Memory>
    requires { 1 ≤ slice }
    ensures same { AreSame runners.old.items runners.new.items }
    ensures ok { IfOk result (λ left. TookTurns slice runners.old.items left runners.new.items) }
    ensures err { OnErr result (Any MayPutOut runners.old.items) }
{
    let mut left = false;
    for k in (0..runners.len()).rev() {
        let goes_on = runners[k].run(slice, gate)?;
        left = left || goes_on;
    }
    Ok(left)
}

// Runs all to their ends.
fn run_rounds<G: Gate>(runners: &mut Vec<Runner<'_>>, slice: u32, gate: &G) -> Result<(), Memory>
    requires { 1 ≤ slice }
    ensures same { AreSame runners.old.items runners.new.items }
    ensures ok { OnOk result (All IsAtEnd runners.new.items) }
    ensures rounds { OnOk result (RanInRounds slice runners.old.items runners.new.items) }
    ensures err { OnErr result (Any MayPutOut runners.old.items) }
{
    while run_round(runners, slice, gate)? {}
    Ok(())
}

// What comes of threads that have ended, of which the first stands last.
fn finish_all(mut runners: Vec<Runner<'_>>, mut all: Vec<Finished>) -> Vec<Finished>
    requires ended { All IsAtEnd runners.items }
    requires none { all.items ≡ [] }
    requires room { vec_len runners ≤ vec_capacity all }
    ensures each { CameOf runners.entry.items result.items }
    ensures order { map hand_in result.items ≡ reverse (map hand_of runners.entry.items) }
{
    while let Some(runner) = runners.pop() {
        all.push_reserved(runner.finish());
    }
    all
}

/// Runs threads to their ends at the words, on the one thread that calls: each takes `slice` memory steps or runs to its
/// end, then the next one, and so on round the list until all have ended. Ended ones are passed over; a compare-exchange
/// may be cut between its two steps. What comes of them stands in the order of their hands, each as `run_thread` says.
///
/// The gate is passed before each memory step. All memory but for output is taken before the first of them: an `Err` comes
/// only where none of these threads took a step, or the code of one of them has an `out`. The hands have then the first
/// steps of runs of their threads.
pub fn run_group<G: Gate>(
    alloc: Global,
    words: &Words,
    hands: Vec<Hand>,
    program: &Program,
    limits: &Limits,
    inputs: &Inputs,
    slice: u32,
    gate: &G,
) -> Result<Vec<Finished>, BrokenGroup>
    requires ready { All (IsReady words.now program.now) hands.items }
    requires words { length words.now.start.initial ≡ length program.now.words }
    requires listed { length inputs.now ≡ length program.now.threads }
    requires slice { 1 ≤ slice }
    ensures each { IfOk result (λ all. All (IsDone words.now program.now limits.now inputs.now) all.items) }
    ensures threads { IfOk result (λ all. map thread_in all.items ≡ map thread_of_hand hands.items) }
    ensures rounds { IfOk result (λ all. WentInRounds slice program.now limits.now inputs.now hands.items (map hand_in all.items)) }
    ensures own { IfErr result (λ b. All (IsOf words.now) b) }
    ensures back { IfErr result (λ b. map thread_of_hand b ≡ map thread_of_hand hands.items) }
    ensures begun { IfErr result (λ b. All (HasBegunIn program.now limits.now inputs.now) b) }
    ensures memory { IfErr result (λ b. All TookNoStep b ⊎ Any (PutsOut program.now) hands.items) }
{
    let Ok(all) = Vec::with_capacity(alloc, hands.len()) else {
        return Err(BrokenGroup { hands });
    };
    let (mut runners, hands) = start_all(alloc, words, hands, program, limits, inputs)?;
    match run_rounds(&mut runners, slice, gate) {
        Ok(()) => Ok(finish_all(runners, all)),
        Err(Memory) => Err(BrokenGroup {
            hands: hands_back(hands, runners),
        }),
    }
}
