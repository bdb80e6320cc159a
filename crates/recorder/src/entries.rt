// The entries of each thread of a machine.
ghost use Rattle.std.specs.Prelude.{◌≡◌, ◌≤◌, IfOk, length, map};
ghost use Rattle.std.specs.List.{range_with_len};
ghost use Rattle.replay_model.specs.ThreadLogs.{thread_log};
ghost use Rattle.history.specs.Played.{thread_steps};
ghost use Rattle.recorder.specs.ThreadLogs.{entry_lists, entries_by};

use dep_log::Entry;
use history::Plain;
use light_base::Memory;
use std::alloc::Global;

// The entries of each of the machine's threads, of which there are so many.
pub(crate) fn all_entries(
    alloc: Global,
    plain: &Plain,
    threads: u8,
) -> Result<Vec<Vec<Entry>>, Memory>
    requires { threads ≡ length plain.now.program.threads }
    ensures { IfOk result (λ all. entry_lists all.items ≡ entries_by plain.now (range_with_len 0 (length plain.now.program.threads))) }
{
    let mut all = Vec::with_capacity(alloc, usize::from(threads))?;
    for thread in 0..threads {
        all.push(Vec::from_slice(alloc, plain.entries(thread))?)?;
    }
    Ok(all)
}
