//! Tests of `write_wave` and `WaveFile`, also with writers that fail.
ghost use Rattle.std.specs.Prelude.{Some};
ghost use Rattle.wave_file.specs.Wave.{FitsWave};

use base_outputs::Output;
use base_texts::Text;
use sf_base::front_of;
use std::alloc::Global;
use std::io;
use std::io::Write;
use wave_file::{WaveFile, write_wave};

/// Eight frames, equal on both sides.
const FRAMES: [i16; 16] = [
    500, 500, 3, 3, 993, 993, -11, -11, -987, -987, 16, 16, 979, 979, -24, -24,
];

/// The WAVE file of those frames.
pub(crate) const FILE: &[u8] =
    b"RIFF\x44\0\0\0WAVEfmt \x10\0\0\0\x01\0\x02\0\x44\xac\0\0\x10\xb1\x02\0\x04\0\x10\0\
data\x20\0\0\0\xf4\x01\xf4\x01\x03\0\x03\0\xe1\x03\xe1\x03\xf5\xff\xf5\xff\x25\xfc\x25\xfc\x10\0\x10\0\
\xd3\x03\xd3\x03\xe8\xff\xe8\xff";

/// The WAVE file without frames.
const SILENCE: &[u8] =
    b"RIFF\x24\0\0\0WAVEfmt \x10\0\0\0\x01\0\x02\0\x44\xac\0\0\x10\xb1\x02\0\x04\0\x10\0\
data\0\0\0\0";

#[test]
fn whole_files(rt: HostRuntime) {
    let mut out = Vec::new(rt.alloc());
    assert!(rt; write_wave(&FRAMES, &mut out).is_ok());
    assert!(rt; out.as_slice() == FILE);
    assert!(rt; out.len() == 76);
    let mut out = Vec::new(rt.alloc());
    assert!(rt; write_wave(&[], &mut out).is_ok());
    assert!(rt; out.as_slice() == SILENCE);
    assert!(rt; out.len() == 44);
}

#[test]
fn a_file_after_another_text(rt: HostRuntime) {
    let mut out = Vec::new(rt.alloc());
    let mut output = Output::to(&mut out);
    output.put(b"first");
    WaveFile::new(&FRAMES).put(&mut output);
    assert!(rt; matches!(output.deliver(), Ok(81)));
    assert!(rt; out.as_slice().starts_with(b"first"));
    assert!(rt; out.as_slice().ends_with(FILE));
}

/// Samples that are written in more than two pieces; neighbours differ.
fn many() -> [i16; 10_000] {
    let mut samples = [0; 10_000];
    for at in 0..10_000 {
        samples[at] = at as i16 - 5000;
    }
    samples
}

#[test]
fn a_long_file(rt: HostRuntime) {
    let samples = many();
    let mut out = Vec::new(rt.alloc());
    assert!(rt; write_wave(&samples, &mut out).is_ok());
    assert!(rt; out.len() == 20_044);
    assert!(rt;
        out[4..8].starts_with(&20_036u32.to_le_bytes())
            && out[40..44].starts_with(&20_000u32.to_le_bytes())
    );
    for (sample, bytes) in samples.iter().zip(out[44..].chunks(2)) {
        assert!(rt; bytes == sample.to_le_bytes().as_slice(), "sample {sample}");
    }
}

/// A writer that accepts `room` bytes, at most 1000 a call, and no more.
#[derive(Drop)]
struct LimitedWriter {
    held: Vec<u8>,
    room: usize,
}

impl Write for LimitedWriter {
    ghost contents = { λ s. Some s.held.items };

    fn write(&mut self, buf: &[u8]) -> io::Result<usize> {
        let accepted = front_of(buf, self.room.min(1000));
        self.held.extend_from_slice(accepted)?;
        self.room -= accepted.len();
        Ok(accepted.len())
    }

    fn flush(&mut self) -> io::Result<()> {
        Ok(())
    }
}

/// Writes the samples as a WAVE file to a writer with this room. Returns what it holds, and the count of the fault.
fn written_until_full(alloc: Global, samples: &[i16], room: usize) -> (Vec<u8>, Option<u64>)
    requires { FitsWave samples.now }
{
    let mut out = LimitedWriter {
        held: Vec::new(alloc),
        room,
    };
    let answer = write_wave(samples, &mut out);
    (out.held, answer.err().map(|fault| fault.written))
}

#[test]
fn writers_that_accept_no_more(rt: HostRuntime) {
    for room in 0..76 {
        let (held, written) = written_until_full(rt.alloc(), &FRAMES, room);
        assert!(rt;
            held.as_slice() == &FILE[..room] && written == Some(room as u64),
            "room {room}"
        );
    }
    let (held, written) = written_until_full(rt.alloc(), &FRAMES, 76);
    assert!(rt; held.as_slice() == FILE && written == None);
    let samples = many();
    for room in [43, 44, 8191, 8236, 8237, 20_043] {
        let (held, written) = written_until_full(rt.alloc(), &samples, room);
        assert!(rt;
            held.len() == room && written == Some(room as u64),
            "room {room}"
        );
    }
}
