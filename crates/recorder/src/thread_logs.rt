// The log of each thread, from its inputs, its entries and its report.
ghost use Rattle.std.specs.Prelude.{◌≡◌, IfOk, length};
ghost use Rattle.recorder.specs.ThreadLogs.{entry_lists, log_by, logs_by};

use dep_log::{Entry, ThreadLog};
use light_base::Memory;
use machine::{Inputs, RunReport};
use std::alloc::Global;

// The log of a thread with this input list, these entries and this report.
fn thread_log(
    alloc: Global,
    list: &[u32],
    entries: Vec<Entry>,
    report: &RunReport,
) -> Result<ThreadLog, Memory>
    ensures { IfOk result (λ log. log ≡ log_by list.now entries.items report.now) }
{
    let count = list.len().min(report.taken() as usize);
    let taken = Vec::from_slice(alloc, &list[..count])?;
    Ok(ThreadLog::new(entries, report.steps(), report.instr(), report.end(), taken))
}

// The logs of all threads.
pub(crate) fn thread_logs(
    alloc: Global,
    inputs: &Inputs,
    all: Vec<Vec<Entry>>,
    reports: &[RunReport],
) -> Result<Vec<ThreadLog>, Memory>
    requires listed { length inputs.now ≡ length reports.now }
    requires counted { length all.items ≡ length reports.now }
    ensures { IfOk result (λ logs. logs.items ≡ logs_by inputs.now 0 (entry_lists all.items) reports.now) }
{
    let mut logs = Vec::with_capacity(alloc, reports.len())?;
    for (thread, entries) in all.into_iter().enumerate() {
        let log = thread_log(alloc, inputs.threads(thread), entries, &reports[thread])?;
        logs.push(log)?;
    }
    Ok(logs)
}
