//! Whole runs on a bank, and reading and copying it.
use crate::outcome::Outcome;
use bank_core::Bank;
use sf_base::front_of;
use sf_reader::read;
use sf_writer::write;
use sfbank::{RunFault, canon_run, edit_run, play_run, show_run};
use std::alloc::Global;
use std::io;
use std::io::{ErrorKind, Write};

// The canonical file of a bank with a preset and an instrument, whose zones and global zones hold
// generators and modulators, and with one sample, `saw`.
pub(crate) static BANK: &[u8] = b"\
    RIFF\x56\x02\0\0sfbk\
    LIST\x2a\0\0\0INFO\
    ifil\x04\0\0\0\x02\0\x04\0\
    isng\x08\0\0\0EMU8000\0\
    INAM\x02\0\0\0\0\0\
    LIST\x6c\0\0\0sdta\
    smpl\x60\0\0\0\
      \x01\0\xfe\xff\0\0\0\0\0\0\0\0\0\0\0\0\0\0\0\0\0\0\0\0\0\0\0\0\0\0\0\0\0\0\0\0\0\0\0\0\0\0\
      \0\0\0\0\0\0\0\0\0\0\0\0\0\0\0\0\0\0\0\0\0\0\0\0\0\0\0\0\0\0\0\0\0\0\0\0\0\0\0\0\0\0\0\0\0\
      \0\0\0\0\0\0\0\0\0\
    LIST\xa4\x01\0\0pdta\
    phdr\x4c\0\0\0\
      p\0\0\0\0\0\0\0\0\0\0\0\0\0\0\0\0\0\0\0\0\0\0\0\0\0\0\0\0\0\0\0\0\0\0\0\0\0\
      EOP\0\0\0\0\0\0\0\0\0\0\0\0\0\0\0\0\0\0\0\0\0\x03\0\0\0\0\0\0\0\0\0\0\0\0\0\
    pbag\x10\0\0\0\
      \0\0\0\0\x01\0\0\0\x02\0\x01\0\x04\0\x01\0\
    pmod\x14\0\0\0\
      \x02\x05\x30\0\x64\0\0\0\0\0\
      \0\0\0\0\0\0\0\0\0\0\
    pgen\x14\0\0\0\
      \x33\0\x01\0\x29\0\0\0\x2c\0\x40\x7f\x29\0\0\0\0\0\0\0\
    inst\x2c\0\0\0\
      i\0\0\0\0\0\0\0\0\0\0\0\0\0\0\0\0\0\0\0\0\0\
      EOI\0\0\0\0\0\0\0\0\0\0\0\0\0\0\0\0\0\x02\0\
    ibag\x0c\0\0\0\
      \0\0\0\0\x02\0\x01\0\x05\0\x03\0\
    imod\x28\0\0\0\
      \x02\x05\x30\0\x64\0\0\0\0\0\
      \x02\x05\x30\0\x64\0\0\0\0\0\
      \x02\x05\x30\0\x64\0\0\0\0\0\
      \0\0\0\0\0\0\0\0\0\0\
    igen\x18\0\0\0\
      \x11\0\x64\0\x30\0\x0a\0\x2b\0\0\x7f\x36\0\x01\0\x35\0\0\0\0\0\0\0\
    shdr\x5c\0\0\0\
      saw\0\0\0\0\0\0\0\0\0\0\0\0\0\0\0\0\0\0\0\0\0\x02\0\0\0\0\0\0\0\0\0\0\0\x44\xac\0\0\x3c\0\
      \0\0\x01\0\
      EOS\0\0\0\0\0\0\0\0\0\0\0\0\0\0\0\0\0\0\0\0\0\0\0\0\0\0\0\0\0\0\0\0\0\0\0\0\0\0\0\0\0\0\0";

// A writer of at most 1000 bytes that allocates nothing.
#[derive(Drop)]
pub(crate) struct FixedWriter {
    held: [u8; 1000],
    len: usize,
}

impl Write for FixedWriter {
    fn write(&mut self, buf: &[u8]) -> io::Result<usize> {
        if self.len > 1000 || buf.len() > 1000 - self.len {
            return Err(io::Error::from(ErrorKind::WriteZero));
        }
        self.held[self.len..self.len + buf.len()].copy_from_slice(buf);
        self.len += buf.len();
        Ok(buf.len())
    }

    fn flush(&mut self) -> io::Result<()> {
        Ok(())
    }
}

impl FixedWriter {
    // The bytes written so far.
    pub(crate) fn text(&self) -> &[u8] {
        front_of(&self.held, self.len)
    }

    // Whether exactly this text was written.
    pub(crate) fn has(&self, text: &[u8]) -> bool {
        self.text() == text
    }
}

pub(crate) fn fixed_writer() -> FixedWriter {
    FixedWriter {
        held: [0; 1000],
        len: 0,
    }
}

/// Scripts, each with its undo script.
pub(crate) static EDITS: [(&[u8], &[u8]); 6] = [
    (b"rename-sample 0 \"sine\"\n", b"rename-sample 0 \"saw\"\n"),
    (
        b"add-sample 0 \"low\" 44100 48 0 right 1 loop 0 2 x0100feff\n",
        b"remove-sample 0\n",
    ),
    (
        b"set-info ICMT \"a bank of one sample\"\n",
        b"set-info ICMT \"\"\n",
    ),
    (
        b"\
        add-inst 1 \"n\" { global g 17 100 m 1282 48 50 0 0 } { 0 g 43 0..59 g 54 1 m 1282 48 50 0 0 }\n\
        add-preset 0 \"n\" 1 0 0 0 0 { global g 44 0..64 } { 1 g 51 -12 m 1282 48 50 0 0 } { 0 }\n",
        b"remove-preset 0\nremove-inst 1\n",
    ),
    (
        b"remove-preset 0\nremove-inst 0\n",
        b"\
        add-inst 0 \"i\" { global g 17 100 g 48 10 m 1282 48 100 0 0 } \
        { 0 g 43 0..127 g 54 1 m 1282 48 100 0 0 m 1282 48 100 0 0 }\n\
        add-preset 0 \"p\" 0 0 0 0 0 { global g 51 1 } { 0 m 1282 48 100 0 0 } { 0 g 44 64..127 }\n",
    ),
    (
        b"group { remove-zone inst 0 0 } { remove-sample 0 }\n",
        b"\
        group { add-sample 0 \"saw\" 44100 60 0 mono noloop x0100feff } \
        { add-zone inst 0 0 { 0 g 43 0..127 g 54 1 m 1282 48 100 0 0 m 1282 48 100 0 0 } }\n",
    ),
];

/// Runs a script, then its undo script on the written file: this restores the bank, and the undo script of that run is
/// the script. A run that is out of memory writes nothing and is made again.
pub(crate) fn run_and_undo(alloc: Global, script: &[u8], back: &[u8]) -> Outcome {
    let mut out = fixed_writer();
    let mut undo = fixed_writer();
    let there = edited(alloc, BANK, script, &mut out, &mut undo);
    let mut restored = fixed_writer();
    let mut again = fixed_writer();
    let returned = edited(alloc, out.text(), undo.text(), &mut restored, &mut again);
    let right = undo.has(back) && restored.has(BANK) && again.has(script);
    there.and(returned).and(Outcome::done(right))
}

// Runs a script. A run that is out of memory writes nothing and is made again.
pub(crate) fn edited(
    alloc: Global,
    file: &[u8],
    script: &[u8],
    out: &mut FixedWriter,
    undo: &mut FixedWriter,
) -> Outcome {
    match edit_run(alloc, file, script, out, undo) {
        Ok(()) => Outcome::Done,
        Err(RunFault::Memory) if out.len == 0 && undo.len == 0 => {
            Outcome::refused(edit_run(alloc, file, script, out, undo).is_ok())
        }
        Err(_) => Outcome::Wrong,
    }
}

/// Writes the canonical file, which is the file itself. A run that is out of memory writes nothing and is made again.
pub(crate) fn canonical_run(alloc: Global) -> Outcome {
    let mut out = fixed_writer();
    match canon_run(alloc, BANK, &mut out) {
        Ok(()) => Outcome::done(out.has(BANK)),
        Err(RunFault::Memory) if out.len == 0 => {
            let again = canon_run(alloc, BANK, &mut out);
            Outcome::refused(again.is_ok() && out.has(BANK))
        }
        Err(_) => Outcome::Wrong,
    }
}

/// Lists the bank. A run that is out of memory writes nothing and is made again.
pub(crate) fn listing_run(alloc: Global) -> Outcome {
    let mut out = fixed_writer();
    match show_run(alloc, BANK, &mut out) {
        Ok(()) => Outcome::done(is_listing(&out)),
        Err(RunFault::Memory) if out.len == 0 => {
            let again = show_run(alloc, BANK, &mut out);
            Outcome::refused(again.is_ok() && is_listing(&out))
        }
        Err(_) => Outcome::Wrong,
    }
}

fn is_listing(out: &FixedWriter) -> bool {
    out.held[..].starts_with(b"bank 4 presets 1 instruments 1 samples 1 points 2\n".as_slice())
}

/// Plays two frames of a note. A run that is out of memory writes nothing and is made again.
pub(crate) fn playing_run(alloc: Global) -> Outcome {
    let notes = b"0 2 0 0 60 127\n";
    let mut out = fixed_writer();
    match play_run(alloc, BANK, notes, &mut out) {
        Ok(()) => Outcome::done(is_wave(&out)),
        Err(RunFault::Memory) if out.len == 0 => {
            let again = play_run(alloc, BANK, notes, &mut out);
            Outcome::refused(again.is_ok() && is_wave(&out))
        }
        Err(_) => Outcome::Wrong,
    }
}

fn is_wave(out: &FixedWriter) -> bool {
    out.len == 52 && out.held[..].starts_with(b"RIFF\x2c\0\0\0WAVE".as_slice())
}

/// Reads a file's bank. A read that fails is made again.
pub(crate) fn bank_of(alloc: Global, file: &[u8]) -> Option<(Bank<'_>, Outcome)> {
    match read(alloc, file) {
        Ok((bank, _counts)) => Some((bank, Outcome::Done)),
        Err(_) => match read(alloc, file) {
            Ok((bank, _counts)) => Some((bank, Outcome::Refused)),
            Err(_) => None,
        },
    }
}

/// Reads a bank from a canonical file and copies it. A copy that fails is made again.
pub(crate) fn bank_copy(alloc: Global, file: &[u8]) -> Outcome {
    let Some((bank, outcome)) = bank_of(alloc, file) else {
        return Outcome::Wrong;
    };
    if let Ok(copy) = bank.copy(alloc) {
        let right = file_of(&bank).has(file) && file_of(&copy).has(file);
        return outcome.and(Outcome::done(right));
    }
    match bank.copy(alloc) {
        Ok(copy) => Outcome::refused(file_of(&bank).has(file) && file_of(&copy).has(file)),
        Err(_) => Outcome::Wrong,
    }
}

/// The canonical file of a bank.
pub(crate) fn file_of(bank: &Bank<'_>) -> FixedWriter {
    let mut out = fixed_writer();
    let _ = write(bank, &mut out);
    out
}
