// Whether a log is that of a whole history of a program.
ghost use Rattle.std.specs.Prelude.{◌≡◌, length, IfOk, IfErr};
ghost use Rattle.light_top.specs.Auditing.{legal_line, IsLegalText, Illegal};
ghost use Rattle.light_top.specs.Statuses.{FailsBy};

use crate::Status;
use crate::bytes::Bytes;
use audit::{Audit, judge};
use dep_log::RunLog;
use light_base::{Memory, put_decimal};
use machine::Program;
use std::alloc::Global;

// That a log is legal, and how many steps this history has, as a line.
fn legal_text(alloc: Global, history: &[u8]) -> Result<Bytes, Memory>
    ensures { IfOk result (λ text. text ≡ legal_line (length history.now)) }
{
    let mut text = Vec::new(alloc);
    text.extend_from_slice(b"legal ")?;
    put_decimal(&mut text, history.len() as u64)?;
    text.push(b'\n')?;
    Ok(Bytes::of(text))
}

/// The length of a whole history of the program that has the log, as text.
pub fn audit_log(
    alloc: Global,
    program: &Program,
    log: &RunLog,
    budget: u32,
) -> Result<Bytes, Status>
    requires threads { length program.now.threads ≡ length log.now.threads }
    requires words { length program.now.words ≡ length log.now.last_tags }
    ensures ok { IfOk result (IsLegalText program.now log.now) }
    ensures err { IfErr result (FailsBy (Illegal program.now log.now budget)) }
{
    match judge(alloc, program, log, budget)? {
        Audit::Legal(history) => Ok(legal_text(alloc, &history)?),
        Audit::NotLegal => Err(Status::NotLegal),
        Audit::Spent => Err(Status::Spent),
    }
}
