//! Files that tests read, and changes of them.

use sf_base::{front_of, rest_from};

/// A position in a file, and the new byte there.
pub type Patch = (usize, u8);

/// A file of at most 1,024 bytes.
#[derive(Clone, Copy)]
pub struct File {
    held: [u8; 1024],
    length: usize,
}

impl File {
    fn new() -> File {
        File {
            held: [0; 1024],
            length: 0,
        }
    }

    /// The file of these words: `'abc` is the text `abc`, `*3` is three zero bytes, and every other word is
    /// bytes in hexadecimal digits.
    pub fn of(words: &str) -> File {
        let mut file = File::new();
        for word in words.split_ascii_whitespace() {
            file.add_word(word);
        }
        file
    }

    fn add_word(&mut self, word: &str) {
        if let Some(text) = word.strip_prefix('\'') {
            self.add(text.as_bytes());
        } else if let Some(count) = word.strip_prefix('*') {
            self.add(front_of(&[0; 100], number_of(Some(count))));
        } else {
            self.add_hex(word.as_bytes());
        }
    }

    fn add_hex(&mut self, digits: &[u8]) {
        for pair in digits.chunks(2) {
            let mut byte = [0];
            if hex::decode_to_slice(pair, &mut byte).is_ok() {
                self.add(&byte);
            }
        }
    }

    pub fn bytes(&self) -> &[u8] {
        front_of(&self.held, self.length)
    }

    fn add(&mut self, bytes: &[u8]) {
        for byte in bytes {
            if let Some(place) = self.held.get_mut(self.length) {
                *place = *byte;
                self.length = self.length.saturating_add(1);
            }
        }
    }

    /// The file with some bytes replaced.
    pub fn patched(&self, patches: &[Patch]) -> File {
        let mut file = *self;
        for (at, byte) in patches {
            if let Some(place) = file.held.get_mut(*at) {
                *place = *byte;
            }
        }
        file
    }

    /// The file after these changes, separated by `;`. Each is a position, the number of bytes to remove there,
    /// and the words to insert.
    pub fn edited(&self, changes: &str) -> File {
        let mut file = *self;
        for change in changes.split(';') {
            let mut words = change.split_ascii_whitespace();
            let (at, out) = (number_of(words.next()), number_of(words.next()));
            let mut put = File::new();
            for word in words {
                put.add_word(word);
            }
            file = file.with(at, out, put.bytes());
        }
        file
    }

    /// The file with `out` bytes at position `at` replaced by `bytes`.
    pub fn with(&self, at: usize, out: usize, bytes: &[u8]) -> File {
        let mut file = File::new();
        file.add(front_of(self.bytes(), at));
        file.add(bytes);
        file.add(rest_from(self.bytes(), at.saturating_add(out)));
        file
    }
}

fn number_of(word: Option<&str>) -> usize {
    match word {
        Some(digits) => digits.parse().unwrap_or(0),
        None => 0,
    }
}

/// E, the empty bank of minor version 4: 308 bytes.
pub fn empty() -> File {
    File::of(
        "'RIFF 2c010000 'sfbk
        'LIST 2a000000 'INFO 'ifil 04000000 02000400 'isng 08000000 'EMU8000 *1 'INAM 02000000 *2
        'LIST 0c000000 'sdta 'smpl *4
        'LIST da000000 'pdta
        'phdr 26000000 'EOP *35
        'pbag 04000000 *4
        'pmod 0a000000 *10
        'pgen 04000000 *4
        'inst 16000000 'EOI *19
        'ibag 04000000 *4
        'imod 0a000000 *10
        'igen 04000000 *4
        'shdr 2e000000 'EOS *43",
    )
}

/// The record of the sample `saw`: rate 44,100, key 60, mono.
fn saw_head() -> File {
    File::of("'saw *17 00000000 02000000 00000000 00000000 44ac0000 3c 00 0000 0100")
}

/// S1, the bank with the sample `saw` of the points 1 and -2: 450 bytes.
pub fn saw() -> File {
    let points = File::of("0100feff *92");
    let sizes = [
        (4, 0xba),
        (66, 108),
        (78, 96),
        (182, 8),
        (183, 1),
        (354, 92),
    ];
    empty()
        .with(82, 0, points.bytes())
        .with(358, 0, saw_head().bytes())
        .patched(&sizes)
}

/// Gives the sample a name of 20 bytes.
pub const RENAME: &[u8] = b"rename-sample 0 \"ABCDEFGHIJKLMNOPQRST\"\n";

/// The undo script of `RENAME`.
pub const RENAME_BACK: &[u8] = b"rename-sample 0 \"saw\"\n";

/// S1 with a name of 20 bytes.
pub fn renamed_saw() -> File {
    saw().with(358, 20, b"ABCDEFGHIJKLMNOPQRST")
}

/// A file with this RIFF size, the texts that all examples have, and these words.
fn file_of(size: &str, words: &str) -> File {
    let lists = File::of(words);
    let front = empty().with(4, 4, File::of(size).bytes());
    front.with(62, 246, lists.bytes())
}

/// T, the preset `p` of the instrument `i` of the looped sample `t`: 532 bytes.
pub fn tone() -> File {
    file_of(
        "0c020000",
        "'LIST 6e000000 'sdta 'smpl 62000000 e803d00730f8 *92
        'LIST 58010000 'pdta
        'phdr 4c000000 'p *37 'EOP *21 01 *13
        'pbag 08000000 *4 01000000
        'pmod 0a000000 *10
        'pgen 08000000 29000000 *4
        'inst 2c000000 'i *21 'EOI *17 0100
        'ibag 08000000 *4 02000000
        'imod 0a000000 *10
        'igen 0c000000 36000100 35000000 *4
        'shdr 5c000000 't *23 03000000 01000000 03000000 44ac0000 3c 00 0000 0100 'EOS *43",
    )
}

/// A bank of two presets, three instruments and the sample `t`, with global zones, modulators, and an instrument
/// without zones: 720 bytes.
pub fn wide() -> File {
    file_of(
        "c8020000",
        "'LIST 6e000000 'sdta 'smpl 62000000 e803d00730f8 *92
        'LIST 14020000 'pdta
        'phdr 72000000 'p *37 'q *19 0100 8000 0200 01000000 02000000 03000000 'EOP *21 04 *13
        'pbag 14000000 *4 00000100 02000100 03000100 04000200
        'pmod 1e000000 0205300001000000 0000 0205300002000000 0000 *10
        'pgen 14000000 3300f4ff 29000200 29000000 29000200 *4
        'inst 58000000 'a *21 'c *19 0200 'b *19 0200 'EOI *17 0400
        'ibag 14000000 *4 01000000 02000200 06000300 07000300
        'imod 28000000 0205300001000000 0000 02053000feff0000 0000 0205300003000000 0000 *10
        'igen 20000000 36000100 35000000 2b003c7f 2c000140 30000700 35000000 35000000 *4
        'shdr 5c000000 't *23 03000000 01000000 03000000 44ac0000 3c 00 0000 0100 'EOS *43",
    )
}
