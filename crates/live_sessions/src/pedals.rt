//! The pedals that are pressed.
ghost use Rattle.std.specs.Prelude.{◌≡◌, [], OnOk, OnErr, filter, not};
ghost use Rattle.std.specs.List.{list_any};
ghost use Rattle.live_sessions.specs.Steps.{is_pedal, with_pedal, without_pedal};

use live_lines::Pedal;
use sf_base::OutOfMemory;
use std::alloc::Global;
use std::marker::Model;

/// The pedals that are pressed, each once.
pub(crate) struct Pedals {
    pedals: Vec<Pedal>,
}

// Not derived: a derived drop is inlined, and proved, wherever a value is dropped; this one is a call.
impl Drop for Pedals {
    fn drop(self) {
        let Pedals { pedals: _ } = self;
    }
}

impl Model for Pedals {
    ghost use Rattle.std.specs.Prelude.{List};
    ghost use Rattle.live_lines.specs.declared.pedal.Pedal.{Pedal};

    ghost Value = { List Pedal };

    ghost view = { λ pressed. pressed.pedals.items };
}

impl Pedals {
    /// No pedals. Allocates nothing.
    pub(crate) fn new(alloc: Global) -> Pedals
        ensures { result ≡ [] }
    {
        Pedals {
            pedals: Vec::new(alloc),
        }
    }

    pub(crate) fn has(&self, pedal: Pedal) -> bool
        ensures { result ≡ list_any (is_pedal pedal) self.now }
    {
        self.pedals.iter().any(|other| is_pedal(pedal, *other))
    }

    /// Adds a pedal, unless it is there. A failed allocation changes nothing.
    pub(crate) fn add(&mut self, pedal: Pedal) -> Result<(), OutOfMemory>
        ensures ok { OnOk result (self.new ≡ with_pedal pedal self.old) }
        ensures err { OnErr result (self.new ≡ self.old) }
    {
        if self.has(pedal) {
            return Ok(());
        }
        match self.pedals.push(pedal) {
            Ok(()) => Ok(()),
            Err(_) => Err(OutOfMemory),
        }
    }

    pub(crate) fn remove(&mut self, pedal: Pedal)
        ensures { self.new ≡ without_pedal pedal self.old }
    {
        self.pedals.retain(|other| !is_pedal(pedal, *other));
    }

    pub(crate) fn clear(&mut self)
        ensures { self.new ≡ [] }
    {
        self.pedals.truncate(0);
    }
}

// Whether both are the pedal of one preset.
fn is_pedal(one: Pedal, other: Pedal) -> bool
    ensures { result ≡ is_pedal one other }
{
    one.bank == other.bank && one.number == other.number
}
