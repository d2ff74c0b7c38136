//! The laws of scripts with comments, as functions that do nothing.
ghost use Rattle.commented_scripts.specs.CommentedScript.{CommentedTextListsEdits, CommentedTextGivesBank};
ghost use Rattle.commented_scripts.specs.CommentedScript.{CommentedTextDeterminesBank};

/// A sound bank's text with comments, with or without points, is a script of the edits that list the bank, from line 2
/// on, as is its text without comments.
pub fn commented_text_lists_edits()
    ensures { CommentedTextListsEdits }
{}

/// A sound bank's text with comments is a script whose edits are accepted in order by the empty bank, and lead to the
/// bank.
pub fn commented_text_gives_bank()
    ensures { CommentedTextGivesBank }
{}

/// Two different sound banks have different texts with comments.
pub fn commented_text_determines_bank()
    ensures { CommentedTextDeterminesBank }
{}
