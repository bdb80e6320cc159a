// A job of a batch.
ghost use Rattle.std.specs.Prelude.{◌≡◌};
ghost use Rattle.batch.specs.Jobs.{job_of};

use std::marker::Model;

/// The bytes of an image and those of a log.
#[derive(Drop)]
pub struct Job {
    image: Vec<u8>,
    log: Vec<u8>,
}

impl Model for Job {
    ghost use Rattle.batch.specs.Jobs.{JobValue, job_of};

    ghost Value = { JobValue };

    ghost view = { λ j. job_of j.image.items j.log.items };
}

impl Job {
    /// The job of these bytes.
    pub fn of(image: Vec<u8>, log: Vec<u8>) -> Job
        ensures { result ≡ job_of image.items log.items }
    {
        Job { image, log }
    }

    /// The bytes of the image.
    pub fn image(&self) -> &[u8]
        ensures { result.now ≡ self.now.image }
    {
        &self.image
    }

    /// The bytes of the log.
    pub fn log(&self) -> &[u8]
        ensures { result.now ≡ self.now.log }
    {
        &self.log
    }
}

// Workers share jobs.
fn is_lent(job: &Job) {
    is_shared(job);
}

fn is_shared<T: Send + Sync>(_: &T) {}
