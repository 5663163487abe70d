//! The words of the system.

ghost use Rattle.std.specs.Prelude.{None};

use crate::words::Words;
use snb_base::{Text, Texts};
use std::alloc::{AllocError, Global};
use std::env;
use std::env::Env;
use std::io::ErrorKind;

/// The words that the system started the program with. It doesn't tell them.
#[derive(Drop)]
pub struct HostWords<R> {
    rt: R,
}

impl<R: Env + AllocGlobal> HostWords<R> {
    /// The words that the runtime reaches. Reads nothing yet.
    pub fn new(rt: R) -> HostWords<R> {
        HostWords { rt }
    }
}

impl<R: Env + AllocGlobal> Words for HostWords<R> {
    ghost told = { λ _. None };

    fn read(&self, alloc: Global) -> Result<Texts, AllocError> {
        let mut texts = Texts::new(alloc);
        match env::args(&self.rt) {
            Ok(words) => {
                for word in words.skip(1) {
                    texts.push(Text::from_str(alloc, word.as_str())?)?;
                }
                Ok(texts)
            }
            Err(error) => {
                if error.kind() == ErrorKind::InvalidData {
                    Ok(texts)
                } else {
                    Err(AllocError)
                }
            }
        }
    }
}
