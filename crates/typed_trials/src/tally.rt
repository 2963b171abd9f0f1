//! How many trials agree.

use std::alloc::Global;
use std::fmt;

/// The trials so far, and those of them that agreed.
#[derive(Drop)]
pub struct Tally<'a> {
    rt: &'a HostRuntime,
    all: u32,
    agreed: u32,
}

impl<'a> Tally<'a> {
    /// No trial yet.
    pub fn new(rt: &'a HostRuntime) -> Tally<'a> {
        Tally {
            rt,
            all: 0,
            agreed: 0,
        }
    }

    /// Plays a trial, prints what came of it, and counts it. One that could not be set up does not agree.
    pub fn play<F: FnOnce(Global) -> Option<bool>>(
        &mut self,
        name: &str,
        trial: F,
    ) -> anyhow::Result<()>
        requires { F.IsAlwaysCallable trial }
    {
        self.all = self.all.saturating_add(1);
        if trial(self.rt.alloc()) == Some(true) {
            self.agreed = self.agreed.saturating_add(1);
            println!(self.rt; "agrees: {name}")?;
        } else {
            println!(self.rt; "DIFFERS: {name}")?;
        }
        Ok(())
    }
}

impl fmt::Display for Tally<'_> {
    fn fmt<W: fmt::Write>(&self, f: &mut fmt::Formatter<W>) -> fmt::Result {
        let agreed = self.agreed;
        let all = self.all;
        write!(f, "{agreed} of {all}")
    }
}
