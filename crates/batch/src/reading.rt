// An image and a log as they are read, with their first faults, where no request for memory is refused.
ghost use Rattle.std.specs.Prelude.{◌≡◌, ◌≢◌, ◌<◌, ◌^◌, IfOk, IfErr, length};
ghost use Rattle.machine.specs.ImageReading.{image_read};
ghost use Rattle.machine.specs.Images.{IsImage};
ghost use Rattle.log_file.specs.Readings.{log_today};

use dep_log::RunLog;
use light_base::Memory;
use log_file::{LogFault, LogKind, read_log};
use machine::{ImageFault, ImageKind, Program, read_image};
use std::alloc::Global;

/// The program whose image the bytes are, or their first fault.
pub fn program_in(alloc: Global, bytes: &[u8]) -> Result<Result<Program, ImageFault>, Memory>
    ensures value { IfOk result (λ read. read ≡ image_read bytes.now) }
    ensures image { IfOk result (λ read. IfOk read (IsImage bytes.now)) }
    ensures fault { IfOk result (λ read. IfErr read (λ fault. fault.kind ≢ ImageKind.Memory)) }
{
    match read_image(alloc, bytes) {
        Ok(program) => Ok(Ok(program)),
        Err(
            ImageFault {
                kind: ImageKind::Memory,
                ..
            },
        ) => Err(Memory),
        Err(fault) => Ok(Err(fault)),
    }
}

/// The log that the bytes tell, or their first fault.
pub fn todays_log_in(alloc: Global, bytes: &[u8]) -> Result<Result<RunLog, LogFault>, Memory>
    requires { length bytes.now < 2 ^ 32 }
    ensures value { IfOk result (λ read. read ≡ log_today bytes.now) }
    ensures fault { IfOk result (λ read. IfErr read (λ fault. fault.kind ≢ LogKind.Memory)) }
{
    match read_log(alloc, bytes) {
        Ok(log) => Ok(Ok(log)),
        Err(
            LogFault {
                kind: LogKind::Memory,
                ..
            },
        ) => Err(Memory),
        Err(fault) => Ok(Err(fault)),
    }
}
