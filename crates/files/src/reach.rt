// How programs reach what is outside of them.
use std::random::RandomSource;
use std::rt::{Env, Files, Stderr};

// Files, the words of the command line, the three standard streams, and chance, for the name of a file that is new.
pub trait Outside: Files + Env + Input + Print + RandomSource {
    type Stderr: Print + Drop;

    // Standard error, which takes bytes that are no text too.
    fn stderr(&self) -> Self::Stderr;
}

impl Outside for HostRuntime {
    type Stderr = Stderr;

    fn stderr(&self) -> Stderr {
        HostRuntime::stderr(self)
    }
}
