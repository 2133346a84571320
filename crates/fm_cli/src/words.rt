// The words of the command line.

use fm_base::NoMemory;
use std::rt::Env;
use std::{env, io};

/// The words of the command line, without the program's name. Where one of them isn't text there are
/// none, since no form that is taken has such a word.
pub fn command_words(rt: &(impl Env + AllocGlobal)) -> Result<Vec<String>, NoMemory> {
    match words_as_text(rt) {
        Ok(words) => Ok(words),
        Err(error) if error.kind() == io::ErrorKind::InvalidData => Ok(Vec::new(rt.alloc())),
        Err(_) => Err(NoMemory),
    }
}

fn words_as_text(rt: &(impl Env + AllocGlobal)) -> io::Result<Vec<String>> {
    let words = env::args(rt)?.skip(1).collect(rt.alloc())?;
    Ok(words)
}
