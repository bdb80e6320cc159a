// What is recorded of a run of all threads.
ghost use Rattle.std.specs.Prelude.{◌≡◌};

use dep_log::RunLog;
use machine::RunReport;
use std::marker::Model;

/// What is recorded of a run of all threads: its log, what each thread reports, and the last value of each word.
#[derive(Debug, Drop)]
pub struct Recorded {
    log: RunLog,
    reports: Vec<RunReport>,
    last_values: Vec<u32>,
}

impl Model for Recorded {
    ghost use Rattle.recorder.specs.Records.{RecordedValue};

    ghost Value = { RecordedValue };

    ghost view = { λ r. record { log = r.log; reports = r.reports.items; last_values = r.last_values.items } };
}

impl Recorded {
    // The record with these parts.
    pub(crate) fn new(log: RunLog, reports: Vec<RunReport>, last_values: Vec<u32>) -> Recorded
        ensures { result ≡ record { log = log; reports = reports.items; last_values = last_values.items } }
    {
        Recorded {
            log,
            reports,
            last_values,
        }
    }

    /// The log of the run.
    pub fn log(&self) -> &RunLog
        ensures { result.now ≡ self.now.log }
    {
        &self.log
    }

    /// What each thread reports, the threads in their order.
    pub fn reports(&self) -> &[RunReport]
        ensures { result.now ≡ self.now.reports }
    {
        &self.reports
    }

    /// The last value of each word.
    pub fn finals(&self) -> &[u32]
        ensures { result.now ≡ self.now.last_values }
    {
        &self.last_values
    }

    /// The log, the threads' reports and the last values.
    pub fn into_parts(self) -> (RunLog, Vec<RunReport>, Vec<u32>)
        ensures log { result.0 ≡ self.log }
        ensures reports { result.1.items ≡ self.reports }
        ensures last_values { result.2.items ≡ self.last_values }
    {
        (self.log, self.reports, self.last_values)
    }
}
