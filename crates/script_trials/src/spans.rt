//! Where the tokens of a line are.

/// Where a token is in its line, in bytes.
#[derive(Clone, Copy)]
pub struct Span {
    /// The index of its first byte.
    pub start: usize,
    /// The index after its last byte.
    pub end: usize,
}

impl Span {
    /// The bytes of the token.
    pub fn of<'t>(self, line: &'t [u8]) -> &'t [u8] {
        match line.get(self.start..self.end) {
            Some(token) => token,
            None => &[],
        }
    }
}

/// The span of the token with this index, if the line has so many tokens.
pub fn span_at(line: &[u8], index: usize) -> Option<Span> {
    let mut span = span_from(line, 0)?;
    for _before in 0..index {
        span = span_from(line, span.end)?;
    }
    Some(span)
}

/// The end of the last token.
pub fn end_of_tokens(line: &[u8]) -> usize {
    let mut end = 0;
    for _token in 0..line.len() {
        match span_from(line, end) {
            Some(span) => end = span.end,
            None => return end,
        }
    }
    end
}

/// The span of the first token from a position on.
pub fn span_from(line: &[u8], at: usize) -> Option<Span> {
    let rest = line.get(at..)?;
    let blanks = rest.iter().take_while(|byte| is_blank(**byte)).count();
    let start = at.saturating_add(blanks);
    let length = token_length(line.get(start..)?)?;
    Some(Span {
        start,
        end: start.saturating_add(length),
    })
}

// The length of the token that a text without leading blanks begins with; none at a comment or the end.
fn token_length(text: &[u8]) -> Option<usize> {
    match text.split_first() {
        None | Some((b'#', _)) => None,
        Some((b'"', rest)) => Some(quoted_length(rest)),
        Some((_, rest)) => {
            let others = rest.iter().take_while(|byte| !is_blank(**byte)).count();
            Some(others.saturating_add(1))
        }
    }
}

// The length of a quoted token, given the text after its first quote. If no last quote ends it before a blank or the
// end, it is the whole text.
fn quoted_length(rest: &[u8]) -> usize {
    let inside = rest.iter().take_while(|byte| **byte != b'"').count();
    let after = inside.saturating_add(1);
    match rest.get(after) {
        None => rest.len().saturating_add(1),
        Some(byte) if is_blank(*byte) => after.saturating_add(1),
        Some(_) => rest.len().saturating_add(1),
    }
}

fn is_blank(byte: u8) -> bool {
    byte == b' ' || byte == b'\t' || byte == b'\r'
}
