use std::rt::Env;
use std::{env, io};

/// The words of the command line after the program's name. One that is no text is an error.
pub fn words<R: AllocGlobal + Env>(rt: &R) -> io::Result<Vec<String>> {
    let mut args = env::args(rt)?;
    args.next();
    let mut words = Vec::new(rt.alloc());
    for word in args {
        words.push(word)?;
    }
    Ok(words)
}
