// The input numbers of a program: a list for each thread.
ghost use Rattle.std.specs.Prelude.{◌≡◌, ◌<◌, ◌≤◌, [], IfOk, SomeIff, length, replicate};
ghost use Rattle.std.specs.List.{list_all};
ghost use Rattle.machine.specs.Faults.{is_count};
ghost use Rattle.machine.specs.Inputs.{AreInputs, are_inputs, input_lists, inputs_of, is_short_list, most_inputs};

use light_base::Memory;
use std::alloc::Global;
use std::marker::Model;

/// The most numbers of an input list.
pub const MOST_INPUTS: usize = 65_536;

/// The input lists of 1 to 15 threads, thread 0 first: numbers of 32 bits, at most 65,536 for each thread.
#[derive(Debug, Drop)]
pub struct Inputs {
    threads: Vec<Vec<u32>>,
}

impl Model for Inputs {
    ghost use Rattle.std.specs.Prelude.{map};
    ghost use Rattle.machine.specs.Inputs.{InputsValue, AreInputs};

    ghost Value = { InputsValue };

    ghost view = { λ inputs. map (λ list. list.items) inputs.threads.items };

    ghost invariant = { λ inputs. AreInputs (map (λ list. list.items) inputs.threads.items) };
}

// Whether each list has at most 65,536 numbers.
fn are_short(threads: &[Vec<u32>]) -> bool
    ensures { result ≡ list_all is_short_list (input_lists threads.now) }
{
    for list in threads {
        if list.len() > MOST_INPUTS {
            return false;
        }
    }
    true
}

// Whether there may be so many lists: 1 to 15.
pub(crate) fn is_count(lists: usize) -> bool
    ensures { result ≡ is_count 15 lists }
{
    0 < lists && lists <= 15
}

fn are_inputs(threads: &[Vec<u32>]) -> bool
    ensures { result ≡ are_inputs (input_lists threads.now) }
{
    is_count(threads.len()) && are_short(threads)
}

impl Inputs {
    /// The inputs of these lists, one for each thread. None exactly where there are not 1 to 15 lists, or one has more
    /// than 65,536 numbers.
    pub fn of(threads: Vec<Vec<u32>>) -> Option<Inputs>
        ensures { SomeIff result (AreInputs (input_lists threads.items)) (input_lists threads.items) }
    {
        if !are_inputs(&threads) {
            return None;
        }
        Some(Inputs { threads })
    }

    /// Inputs of so many threads, 1 to 15, without numbers. An `Err` is a request for memory that was refused.
    pub fn none(alloc: Global, threads: u8) -> Result<Inputs, Memory>
        requires some { 1 ≤ threads }
        requires most { threads ≤ 15 }
        ensures { IfOk result (λ inputs. inputs ≡ replicate threads []) }
    {
        let mut lists = Vec::with_capacity(alloc, usize::from(threads))?;
        for _ in 0..threads {
            lists.push(Vec::new(alloc))?;
        }
        Ok(Inputs { threads: lists })
    }

    // The inputs of lists that keep the rules.
    pub(crate) fn sound(threads: Vec<Vec<u32>>) -> Inputs
        requires { AreInputs (input_lists threads.items) }
        ensures { result ≡ input_lists threads.items }
    {
        Inputs { threads }
    }

    /// The list of a thread, of at most 65,536 numbers.
    pub fn threads(&self, thread: usize) -> &[u32]
        requires { thread < length self.now }
        ensures value { result.now ≡ inputs_of self.now thread }
        ensures rules { AreInputs self.now }
        ensures short { length result.now ≤ most_inputs }
    {
        &self.threads[thread]
    }

    /// How many threads have a list.
    pub fn threads_count(&self) -> usize
        ensures value { result ≡ length self.now }
        ensures rules { AreInputs self.now }
    {
        self.threads.len()
    }

    /// The list of each thread.
    pub fn into_parts(self) -> Vec<Vec<u32>>
        ensures lists { input_lists result.items ≡ self }
        ensures rules { AreInputs self }
    {
        self.threads
    }
}
