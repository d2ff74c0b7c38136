//! Laws of scripts.
ghost use Rattle.edit_script.specs.Laws.{SpelledIsRead, OneReading, PrintedLinesSpell, SpelledEditsFit};

/// A text encodes exactly the edits that are read from it, on their lines.
pub fn spelled_is_read()
    ensures { SpelledIsRead }
{}

/// No text encodes two different lists of edits.
pub fn one_reading()
    ensures { OneReading }
{}

/// The printed lines of edits that fit encode those edits, the first on line 1. The empty text encodes no edits.
pub fn printed_lines_spell()
    ensures { PrintedLinesSpell }
{}

/// Every edit that a text encodes fits: its numbers are in the ranges of their types, and its names are valid.
pub fn spelled_edits_fit()
    ensures { SpelledEditsFit }
{}
