//! What an answer says after `#`.
ghost use Rattle.std.specs.Prelude.{◌≡◌, ◌≤◌, ◌-◌, ◌++◌, codes, length, map, take};
ghost use Rattle.live_lines.specs.Comments.{visible, IsShown, edit_line};

use arrayvec::ArrayVec;
use edit_forms::Edit;
use edit_script::print;
use sf_base::front_of;
use std::marker::Model;

/// The most bytes of a text that a comment shows.
pub const LONGEST: usize = 120;

/// A text, or its first 120 bytes and `..`. Control characters are shown as `?`.
#[derive(Debug, Drop)]
pub struct Comment {
    text: ArrayVec<u8, 122>,
}

impl Model for Comment {
    ghost use Rattle.std.specs.Prelude.{ℕ, List};

    ghost Value = { List ℕ };

    ghost view = { λ comment. comment.text.items };
}

impl Comment {
    /// Shows a text.
    pub fn of(text: &[u8]) -> Comment
        ensures { IsShown text.now result }
    {
        if text.len() <= LONGEST {
            Comment::whole(text)
        } else {
            Comment::cut(front_of(text, LONGEST))
        }
    }

    /// Shows the line of an edit. Takes time in proportion to the edit's points.
    pub fn of_edit(edit: &Edit<'_>) -> Comment
        ensures { IsShown (edit_line edit.now) result }
    {
        // One byte more than a comment shows, for the line feed.
        let mut front: ArrayVec<u8, 121> = ArrayVec::new();
        match print(edit, &mut front) {
            Ok(()) => Comment::of(without_feed(front.as_slice())),
            Err(_) => Comment::cut(front_of(front.as_slice(), LONGEST)),
        }
    }

    // Shows a text whole.
    fn whole(text: &[u8]) -> Comment
        requires { length text.now ≤ LONGEST }
        ensures { result ≡ map visible text.now }
    {
        let mut shown = ArrayVec::new();
        shown.try_extend_from_slice(text).unwrap();
        make_visible(shown.as_mut_slice());
        Comment { text: shown }
    }

    // Shows the first bytes of a longer text.
    fn cut(front: &[u8]) -> Comment
        requires { length front.now ≤ LONGEST }
        ensures { result ≡ map visible front.now ++ codes ".." }
    {
        let mut comment = Comment::whole(front);
        comment.text.try_extend_from_slice(b"..").unwrap();
        comment
    }

    /// The bytes of the comment.
    pub fn bytes(&self) -> &[u8]
        ensures { result.now ≡ self.now }
    {
        self.text.as_slice()
    }
}

// A line without its last byte, which is its line feed.
fn without_feed(line: &[u8]) -> &[u8]
    ensures { result.now ≡ take (length line.now - 1) line.now }
{
    front_of(line, line.len().saturating_sub(1))
}

// Replaces control characters by `?`.
fn make_visible(bytes: &mut [u8])
    ensures { bytes.new ≡ map visible bytes.old }
{
    for byte in bytes.iter_mut() {
        show(byte);
    }
}

fn show(byte: &mut u8)
    ensures { byte.new ≡ visible byte.old }
{
    if *byte < 32 || *byte == 127 {
        *byte = b'?';
    }
}
