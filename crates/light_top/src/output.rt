// What a command gives: a text that is printed, and a file that is saved.
ghost use Rattle.std.specs.Prelude.{◌≡◌};
ghost use Rattle.light_top.specs.Outputs.{printed, saved_as};

use crate::bytes::Bytes;
use crate::words::Name;

/// A file that is to be saved.
#[derive(Drop)]
pub struct Saved<'a> {
    pub name: Name<'a>,
    pub bytes: Bytes,
}

/// The text that is to be printed, and the file that is to be saved before, if there is one.
#[derive(Drop)]
pub struct Output<'a> {
    pub text: Bytes,
    pub saved: Option<Saved<'a>>,
}
