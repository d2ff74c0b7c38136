//! The names of the files that hold the points of samples.
ghost use Rattle.std.specs.Prelude.{◌≡◌, ◌<◌, ◌++◌, map, replicate, IfOk, OnOk, string_bytes};
ghost use Rattle.bank_folders.specs.Laws.{files_from};
ghost use Rattle.bank_folders.specs.SampleFiles.{file_digits, is_reserved, is_kept, file_byte, name_part, sample_file};

use bank_parts::Sample;
use itoa::Buffer;
use sf_base::{Name20, OutOfMemory};
use std::alloc::Global;

/// The fewest digits of a number in the name of a file.
const FEWEST_DIGITS: usize = 4;

/// The byte in the place of one that is not kept: `_`.
const REPLACEMENT: u8 = b'_';

/// The name of the file of the sample with this number, counted from 0: at least four digits, then a space and the
/// name of the sample unless it is empty, then `.wav`. For sample 12 with the name `Piano C4` it is
/// `0012 Piano C4.wav`.
///
/// Each byte of the name other than ASCII letters, digits, spaces and ``! # $ % & ' ( ) + , - . ; = @ [ ] ^ _ ` { } ~``
/// becomes `_`, so that every system accepts the name.
#[tactic(auto, unfolding(crate::specs::SampleFiles::sample_file))]
pub fn sample_file(alloc: Global, number: u64, name: &Name20) -> Result<String, OutOfMemory>
    ensures { IfOk result (λ file. string_bytes file ≡ sample_file number name.now) }
{
    let mut file = String::new(alloc);
    push_number(&mut file, number)?;
    push_name(&mut file, name.bytes())?;
    file.push_str(".wav")?;
    Ok(file)
}

/// The names of the files of samples, of which the first has the number 0.
pub fn sample_file_names(alloc: Global, samples: &[Sample<'_>]) -> Result<Vec<String>, OutOfMemory>
    ensures { IfOk result (λ files. map string_bytes files.items ≡ files_from 0 samples.now) }
{
    let mut files = Vec::new(alloc);
    for (number, sample) in samples.iter().enumerate() {
        files.push(sample_file(alloc, number as u64, &sample.name)?)?;
    }
    Ok(files)
}

// Appends the digits of a number, at least four.
fn push_number(file: &mut String, number: u64) -> Result<(), OutOfMemory>
    ensures { OnOk result (string_bytes file.new ≡ string_bytes file.old ++ file_digits number) }
{
    let mut buffer = Buffer::new();
    let digits = buffer.format(number);
    push_zeros(file, FEWEST_DIGITS.saturating_sub(digits.len()))?;
    file.push_str(digits)?;
    Ok(())
}

fn push_zeros(file: &mut String, count: usize) -> Result<(), OutOfMemory>
    ensures { OnOk result (string_bytes file.new ≡ string_bytes file.old ++ replicate count 48) }
{
    for _ in 0..count {
        file.push('0')?;
    }
    Ok(())
}

// Appends a space and the name, unless it is empty.
fn push_name(file: &mut String, name: &[u8]) -> Result<(), OutOfMemory>
    ensures { OnOk result (string_bytes file.new ≡ string_bytes file.old ++ name_part name.now) }
{
    if name.is_empty() {
        return Ok(());
    }
    file.push(' ')?;
    push_bytes(file, name)
}

// Appends the bytes, each one that is not kept as `_`.
fn push_bytes(file: &mut String, name: &[u8]) -> Result<(), OutOfMemory>
    ensures { OnOk result (string_bytes file.new ≡ string_bytes file.old ++ map file_byte name.now) }
{
    for byte in name {
        file.push(char::from(file_byte(*byte)))?;
    }
    Ok(())
}

// The byte of a file's name for a byte of a sample's name.
fn file_byte(byte: u8) -> u8
    ensures value { result ≡ file_byte byte }
    ensures ascii { result < 128 }
{
    if is_kept(byte) { byte } else { REPLACEMENT }
}

fn is_kept(byte: u8) -> bool
    ensures { result ≡ is_kept byte }
{
    byte >= 0x20 && byte <= 0x7e && !is_reserved(byte)
}

// Whether some system forbids the byte in the name of a file.
fn is_reserved(byte: u8) -> bool
    ensures { result ≡ is_reserved byte }
{
    byte == b'"'
        || byte == b'*'
        || byte == b'/'
        || byte == b':'
        || byte == b'<'
        || byte == b'>'
        || byte == b'?'
        || byte == b'\\'
        || byte == b'|'
}
