//! A whole output, written in few large pieces.
ghost use Rattle.std.specs.Prelude.{◌≡◌, [], None};
ghost use Rattle.base_outputs.specs.Output.{Begins, Puts, Ends, EndsFlushed};

use crate::writing::{WriteFault, finish, put_after};
use arrayvec::ArrayVec;
use std::io::Write;

/// A buffered writer for one whole output, from its first byte to its flush: a bank file, a listing, a script.
///
/// `put` appends a text and returns nothing. After a fault of the writer nothing more is written, and `end` or
/// `deliver` returns the fault. A fault is an error of `write`, or a `write` of no bytes; there is no retry. The output
/// allocates nothing: it holds short texts in itself and writes them together, and writes a text longer than its buffer
/// directly.
///
/// It counts the bytes written. A count above 2^64, which no run reaches, is a fault too.
#[derive(Drop)]
pub struct Output<'a, W> {
    out: &'a mut W,
    // The bytes put last and not yet written.
    held: ArrayVec<u8, 4096>,
    // The number of bytes written.
    sent: u64,
    fault: Option<WriteFault>,
}

impl<'a, W: Write> Output<'a, W> {
    /// Starts an output to this writer.
    pub fn to(out: &'a mut W) -> Output<'a, W>
        ensures { Begins W.contents out.entry result }
    {
        Output {
            out,
            held: ArrayVec::new(),
            sent: 0,
            fault: None,
        }
    }

    /// Appends a text. Faults are returned by `end` or `deliver`.
    #[tactic(auto, using(crate::proofs::OutputLaws::puts_then, crate::proofs::OutputSteps::puts_after_fault))]
    pub fn put(&mut self, text: &[u8])
        ensures { Puts W.contents self.old self.new text.now }
    {
        if self.fault.is_some() || self.held.try_extend_from_slice(text).is_ok() {
            return;
        }
        self.write_held();
        self.put_first(text);
    }

    // Appends a text when nothing is held.
    #[tactic(auto, using(crate::proofs::OutputSteps::puts_on, crate::proofs::OutputSteps::puts_fault))]
    fn put_first(&mut self, text: &[u8])
        requires { self.old.held.items ≡ [] }
        ensures { Puts W.contents self.old self.new text.now }
    {
        if self.fault.is_some() || self.held.try_extend_from_slice(text).is_ok() {
            return;
        }
        match put_after(self.out, self.sent, text) {
            Ok(sent) => self.sent = sent,
            Err(fault) => self.fault = Some(fault),
        }
    }

    // Writes the held bytes.
    #[tactic(auto, using(crate::proofs::OutputSteps::puts_on, crate::proofs::OutputSteps::puts_fault))]
    fn write_held(&mut self)
        requires { self.old.fault ≡ None }
        ensures puts { Puts W.contents self.old self.new [] }
        ensures emptied { self.new.held.items ≡ [] }
    {
        let answer = put_after(self.out, self.sent, self.held.as_slice());
        self.held.clear();
        match answer {
            Ok(sent) => self.sent = sent,
            Err(fault) => self.fault = Some(fault),
        }
    }

    /// Writes the held bytes, without a flush, and returns the number of all bytes that were put. A fault, now or at an
    /// earlier `put`, holds the number of bytes written, which is less than all.
    #[tactic(auto, using(crate::proofs::OutputSteps::ends_sent, crate::proofs::OutputSteps::ends_fault))]
    pub fn end(self) -> Result<u64, WriteFault>
        ensures { Ends W.contents self.entry (W.contents self.exit.0.now) result }
    {
        let Output {
            out,
            held,
            sent,
            fault,
        } = self;
        if let Some(fault) = fault {
            return Err(fault);
        }
        put_after(out, sent, held.as_slice())
    }

    /// Writes the held bytes, flushes the writer, and returns the number of all bytes that were put. A failed flush is
    /// a fault after all of them.
    pub fn deliver(self) -> Result<u64, WriteFault>
        ensures { EndsFlushed W.contents self.entry (W.contents self.exit.0.now) result }
    {
        let Output {
            out,
            held,
            sent,
            fault,
        } = self;
        if let Some(fault) = fault {
            return Err(fault);
        }
        let total = put_after(out, sent, held.as_slice())?;
        finish(out, total)?;
        Ok(total)
    }
}
