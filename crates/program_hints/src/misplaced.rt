//! Words in the place of a path.

use crate::forms::form_of;
use crate::remarks::Remarks;
use script_trials::span_at;

/// Says what to do with an edit in the place of the path of an input.
pub fn remark_on_path(path: &[u8], remarks: &mut Remarks) {
    let word = span_at(path, 0).map(|span| span.of(path));
    if word.is_some_and(|word| word != path && form_of(word).is_some()) {
        remarks.line(&[b"This is an edit: save it in a file, and give the path of the file."]);
    }
}
