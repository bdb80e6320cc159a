// What tells one program from another.
ghost use Rattle.std.specs.Prelude.{◌≡◌, ◌↔◌, IsTrue, length};
ghost use Rattle.machine.specs.Images.{IsImage};
ghost use Rattle.batch.specs.Prints.{logged_print, print_of_image, same_print};

use dep_log::RunLog;
use log_file::digest_of;
use machine::Program;

/// What a log says of its program, or what an image is: the SHA-256 of the image, and the numbers of words and of
/// threads.
#[derive(Clone, Copy, Debug, PartialEq, Eq)]
pub struct Print {
    pub digest: [u8; 32],
    pub words: u16,
    pub threads: u8,
}

impl Print {
    /// What a log says of its program.
    pub fn of_log(log: &RunLog) -> Print
        ensures { result ≡ logged_print log.now }
    {
        Print {
            digest: *log.digest(),
            words: log.finals().len() as u16,
            threads: log.threads().len() as u8,
        }
    }

    /// What an image is, whose program this is.
    pub fn of_image(image: &[u8], program: &Program) -> Print
        ensures { result ≡ print_of_image image.now program.now }
    {
        Print {
            digest: digest_of(image),
            words: program.words().len() as u16,
            threads: program.threads_count() as u8,
        }
    }

    /// Whether it is this one.
    pub fn is(&self, other: &Print) -> bool
        ensures value { result ≡ same_print self.now other.now }
        ensures same { IsTrue result ↔ (self.now ≡ other.now) }
    {
        self.digest == other.digest && self.words == other.words && self.threads == other.threads
    }
}
