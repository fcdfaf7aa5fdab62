//! What a row takes of the processor.

ghost use Rattle.std.specs.Prelude.{◌≡◌, ◌+◌, ◌-◌, ◌^◌, IfErr, IfOk, min, nat_lt, if◌then◌else◌};
ghost use Rattle.std.specs.Duration.{as_nanos};

use std::time::Duration;
use std::{fmt, io};

/// The nanoseconds of the processor that were taken.
#[derive(Clone, Copy)]
pub struct Spent {
    pub linker: u64,
    pub revelation: u64,
}

impl fmt::Display for Spent {
    fn fmt<W: fmt::Write>(&self, f: &mut fmt::Formatter<W>) -> fmt::Result {
        write!(
            f,
            "revelation {} ns, linker {} ns",
            self.revelation, self.linker
        )
    }
}

impl Spent {
    /// So much more was taken.
    pub fn add(&mut self, linker: u64, revelation: u64)
        ensures linker { self.new.linker ≡ min (self.old.linker + linker) (2 ^ 64 - 1) }
        ensures revelation { let sum = self.old.revelation + revelation in
            self.new.revelation ≡ min sum (2 ^ 64 - 1) }
    {
        self.linker = self.linker.saturating_add(linker);
        self.revelation = self.revelation.saturating_add(revelation);
    }
}

/// The nanoseconds of a time that a clock told: 0 where it told none, and where 64 bits do not hold them.
pub fn nanoseconds(time: io::Result<Duration>) -> u64
    ensures measured { IfOk time (λ t.
        result ≡ if nat_lt (as_nanos t) (2 ^ 64) then as_nanos t else 0) }
    ensures failed { IfErr time (λ e. result ≡ 0) }
{
    match time {
        Ok(time) => u64::try_from(time.as_nanos()).unwrap_or(0),
        Err(_) => 0,
    }
}
