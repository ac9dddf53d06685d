//! The words behind a program's name.

use crate::stop::Stop;
use amqp_types::{NoMemory, ShortString, Text, TypeFault};
use amqp_uri::AMQPUri;
use lapin_connection::error_of_address;
use std::alloc::Global;
use std::env;
use std::io::ErrorKind;

/// The words behind the program's name.
pub fn words_given(rt: &HostRuntime) -> Result<Vec<Text>, Stop> {
    match env::args(rt) {
        Ok(args) => {
            let alloc = rt.alloc();
            let mut words = Vec::new(alloc);
            for word in args.skip(1) {
                let word = Text::new(alloc, word.as_str())?;
                if words.push(word).is_err() {
                    return Err(NoMemory.into());
                }
            }
            Ok(words)
        }
        Err(why) if why.kind() == ErrorKind::OutOfMemory => Err(NoMemory.into()),
        Err(_) => Err(Stop::Unknown),
    }
}

/// The address that a word is.
pub fn address(alloc: Global, word: &str) -> Result<AMQPUri, Stop> {
    match AMQPUri::parse(alloc, word) {
        Ok(uri) => Ok(uri),
        Err(fault) => Err(Stop::Wrong(error_of_address(fault).into())),
    }
}

/// The name of at most 255 octets that a word is.
pub fn short(alloc: Global, word: &str) -> Result<ShortString, Stop> {
    match ShortString::new(alloc, word.as_bytes()) {
        Ok(name) => Ok(name),
        Err(TypeFault::NoMemory) => Err(NoMemory.into()),
        Err(_) => Err(Stop::Unknown),
    }
}
