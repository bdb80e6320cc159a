// What is logged of a run of all threads.
ghost use Rattle.std.specs.Prelude.{◌≡◌};
ghost use Rattle.replay_model.specs.WellFormed.{IsWellFormed};

use crate::ThreadLog;
use light_base::Tag;
use machine::Limits;
use std::marker::Model;

/// The log of a run of all threads: the digest of the program's image, the limits, each thread's log, and the tag that
/// each word has at the end. It is always well formed: its counts are in range, each thread keeps to the limits, entries
/// and last tags name steps that were taken, the entries of a thread stand by rising first, and those of one word have
/// different sources and do not overlap.
#[derive(Debug, Drop)]
pub struct RunLog {
    digest: [u8; 32],
    limits: Limits,
    threads: Vec<ThreadLog>,
    last_tags: Vec<Tag>,
}

impl Model for RunLog {
    ghost use Rattle.replay_model.specs.Logs.{Log};

    ghost Value = { Log };

    ghost use Rattle.replay_model.specs.WellFormed.{IsWellFormed};

    ghost view = { λ l. record { digest = l.digest; limits = l.limits; threads = l.threads.items; last_tags = l.last_tags.items } };

    ghost invariant = { λ l. IsWellFormed (record { digest = l.digest; limits = l.limits; threads = l.threads.items; last_tags = l.last_tags.items }) };
}

impl RunLog {
    /// The log with these parts, which make a well-formed one.
    pub fn new(
        digest: [u8; 32],
        limits: Limits,
        threads: Vec<ThreadLog>,
        last_tags: Vec<Tag>,
    ) -> RunLog
        requires { IsWellFormed (record { digest = digest; limits = limits; threads = threads.items; last_tags = last_tags.items }) }
        ensures { result ≡ record { digest = digest; limits = limits; threads = threads.items; last_tags = last_tags.items } }
    {
        RunLog {
            digest,
            limits,
            threads,
            last_tags,
        }
    }

    /// Sets the digest of the program's image. All else stays.
    pub fn set_digest(&mut self, digest: [u8; 32])
        ensures { self.new ≡ record self.old { digest = digest } }
    {
        self.digest = digest;
    }

    /// The digest of the program's image.
    pub fn digest(&self) -> &[u8; 32]
        ensures { result.now ≡ self.now.digest }
    {
        &self.digest
    }

    /// The limits under which the threads ran.
    pub fn limits(&self) -> &Limits
        ensures { result.now ≡ self.now.limits }
    {
        &self.limits
    }

    /// What is logged of each thread.
    pub fn threads(&self) -> &[ThreadLog]
        ensures value { result.now ≡ self.now.threads }
        ensures rules { IsWellFormed self.now }
    {
        &self.threads
    }

    /// The tag that each word has at the end.
    pub fn finals(&self) -> &[Tag]
        ensures value { result.now ≡ self.now.last_tags }
        ensures rules { IsWellFormed self.now }
    {
        &self.last_tags
    }

    /// The digest, the limits, the threads' logs and the last tags.
    pub fn into_parts(self) -> ([u8; 32], Limits, Vec<ThreadLog>, Vec<Tag>)
        ensures digest { result.0 ≡ self.digest }
        ensures limits { result.1 ≡ self.limits }
        ensures threads { result.2.items ≡ self.threads }
        ensures last_tags { result.3.items ≡ self.last_tags }
        ensures rules { IsWellFormed self }
    {
        let digest = self.digest;
        (digest, self.limits, self.threads, self.last_tags)
    }
}
