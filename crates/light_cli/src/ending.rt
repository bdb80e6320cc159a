// How the program ends: with which exit status, and what it tells.
ghost use Rattle.std.specs.Prelude.{◌≡◌};
ghost use Rattle.std.specs.Process.{exit_status};
ghost use Rattle.light_cli.specs.Telling.{Tells};
ghost use Rattle.light_top.specs.Statuses.{code_of, status_line};

use light_base::{Sink, SinkFault, put_all};
use light_top::{Status, status_text};
use std::alloc::Global;
use std::process::ExitCode;

/// The exit status of a command's status.
pub fn exit_code(status: &Status) -> ExitCode
    ensures { exit_status result ≡ code_of status.now }
{
    ExitCode::from(status.code())
}

/// Tells the line of a status. After a refusal the sink has taken nothing, or a front of the line, and not all of it.
pub fn tell<K: Sink>(alloc: Global, out: &mut K, status: &Status) -> Result<(), SinkFault>
    ensures { Tells (K.told out.old) (K.told out.new) (status_line status.now) result }
{
    match status_text(alloc, status) {
        Ok(line) => put_all(out, &line),
        Err(_) => Err(SinkFault::Memory),
    }
}
