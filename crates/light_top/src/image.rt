// An image that was read.
ghost use Rattle.std.specs.Prelude.{◌≡◌, Ok, IfOk, IfErr};
ghost use Rattle.light_top.specs.Images.{as_image};
ghost use Rattle.light_top.specs.Given.{NotRead};

use crate::Status;
use crate::bytes::Bytes;
use batch::{Print, program_in};
use machine::Program;
use std::alloc::Global;
use std::marker::Model;

/// The bytes of an image, and the program whose image they are.
#[derive(Drop)]
pub struct Image {
    bytes: Bytes,
    program: Program,
}

impl Model for Image {
    ghost use Rattle.machine.specs.Images.{IsImage};
    ghost use Rattle.light_top.specs.Images.{ImageValue};

    ghost Value = { ImageValue };

    ghost view = { λ i. record { bytes = i.bytes; program = i.program } };

    ghost invariant = { λ i. IsImage i.bytes i.program };
}

impl Image {
    ghost use Rattle.machine.specs.Images.{IsImage};
    ghost use Rattle.light_top.specs.Logs.{image_print};

    /// Reads bytes as an image.
    pub fn read(alloc: Global, bytes: Bytes) -> Result<Image, Status>
        ensures ok { IfOk result (λ image. as_image bytes ≡ Ok image) }
        ensures err { IfErr result (NotRead (as_image bytes)) }
    {
        match program_in(alloc, bytes.as_slice())? {
            Ok(program) => Ok(Image { bytes, program }),
            Err(fault) => Err(Status::ImageRefused(fault)),
        }
    }

    pub fn bytes(&self) -> &[u8]
        ensures value { result.now ≡ self.now.bytes }
        ensures image { IsImage self.now.bytes self.now.program }
    {
        self.bytes.as_slice()
    }

    pub fn program(&self) -> &Program
        ensures value { result.now ≡ self.now.program }
        ensures image { IsImage self.now.bytes self.now.program }
    {
        &self.program
    }

    /// What tells the program from others.
    pub fn fingerprint(&self) -> Print
        ensures { result ≡ image_print self.now }
    {
        Print::of_image(self.bytes.as_slice(), &self.program)
    }
}
