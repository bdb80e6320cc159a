// The words that the program was called with.
ghost use Rattle.std.specs.Prelude.{◌≡◌, drop, IfOk, IfErr, IsOkAnd};
ghost use Rattle.std.specs.Vec.Iter.{into_iter_items};
ghost use Rattle.light_cli.specs.Words.{WordsRefused};

use light_top::Status;
use std::alloc::Global;
use std::env::Args;
use std::io;

/// The words after the program's name. A word that is no text is no word of a command.
pub fn words_of(alloc: Global, args: io::Result<Args>) -> Result<Vec<String>, Status>
    ensures ok { IfOk result (λ words. IsOkAnd args (λ all. words.items ≡ drop 1 (into_iter_items all))) }
    ensures err { IfErr result (WordsRefused args) }
{
    match args {
        Ok(all) => match all.skip(1).collect(alloc) {
            Ok(words) => Ok(words),
            Err(_) => Err(Status::Memory),
        },
        Err(error) => match error.kind() {
            io::ErrorKind::OutOfMemory => Err(Status::Memory),
            _ => Err(Status::Usage),
        },
    }
}
