//! The arguments of the command line.

use asset_requests::ArgumentsFault;
use std::rt::Env;
use std::{env, io};

/// Reads the arguments of the command line, the program's name first.
pub fn read_arguments<R: Env + AllocGlobal>(rt: &R) -> Result<Vec<String>, ArgumentsFault> {
    match env::args(rt) {
        Ok(arguments) => arguments
            .collect(rt.alloc())
            .map_err(|_| ArgumentsFault::NoMemory),
        Err(error) if error.kind() == io::ErrorKind::OutOfMemory => {
            Err(ArgumentsFault::NoMemory)
        }
        Err(_) => Err(ArgumentsFault::NotText),
    }
}
