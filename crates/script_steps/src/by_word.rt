//! A match on the bytes of a word.

/// The value of the first of these texts that the word equals, if one does.
macro_rules! by_word {
    ($word:expr, $($text:literal => $value:expr),+ $(,)?) => {
        $(if $word == $text.as_slice() { Some($value) } else)+ { None }
    };
}

pub(crate) use by_word;
