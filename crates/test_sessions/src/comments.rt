//! Tests of what answers say after `#`.

use live_lines::{Comment, faulty_token};
use std::alloc::Global;

/// Faulty lines and their wrong tokens; none where a token is missing.
const TOKENS: [(&[u8], Option<&[u8]>); 22] = [
    (b"unknown 1", Some(b"unknown")),
    (b"undo 1", Some(b"1")),
    (b"  help\tme # now", Some(b"me")),
    (b"rename-sample 0", None),
    (b"rename-sample 0 # \"u\"", None),
    (b"rename-sample x \"u\"", Some(b"x")),
    (b"rename-sample 0 \"u", Some(b"\"u")),
    (b"rename-sample 0 \"u\"v w", Some(b"\"u\"v w")),
    (b"rename-sample 0 x7", Some(b"x7")),
    (b"rename-sample 0 x6100", Some(b"x6100")),
    (b"neutral trim 0 1 -1", Some(b"-1")),
    (b"group { rename-sample 0 \"u\" ", None),
    (b"group rename-sample", Some(b"rename-sample")),
    (b"note 1 2", None),
    (b"note 1 0 0 128 0", Some(b"128")),
    (b"note 100000001 0 0 60 100", Some(b"100000001")),
    (b"pedal up 0 0", Some(b"up")),
    (b"frames 100000001", Some(b"100000001")),
    (b"record", None),
    (b"record a b", Some(b"b")),
    (b"save a", None),
    (b"save xbank undo", Some(b"xbank")),
];

fn is_shown(comment: Option<Comment>, text: Option<&[u8]>) -> bool {
    match (comment, text) {
        (Some(comment), Some(text)) => comment.bytes() == text,
        (None, None) => true,
        _ => false,
    }
}

fn is_found(alloc: Global, line: &[u8], token: Option<&[u8]>) -> bool {
    is_shown(faulty_token(alloc, line), token)
}

#[test]
fn wrong_tokens_are_shown(rt: HostRuntime) {
    for (line, token) in TOKENS {
        assert!(rt; is_found(rt.alloc(), line, token));
    }
}

#[test]
fn long_comments_are_cut(rt: HostRuntime) {
    let text = [b'a'; 121];
    let cut = Comment::of(&text);
    assert!(rt; cut.bytes().len() == 122);
    assert!(rt; cut.bytes().ends_with(b"a.."));
    assert!(rt; Comment::of(&text[1..]).bytes() == &text[1..]);
    assert!(rt; Comment::of(b"\x1bc\x7f\xc3\xbc").bytes() == b"?c?\xc3\xbc".as_slice());
}
