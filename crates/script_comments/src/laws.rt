//! The laws of comments, as functions that do nothing: each law is a contract.
ghost use Rattle.script_comments.specs.Lines.{CommentsAreComments, CommentsAreSkipped, EachCommentIsSkipped, CommentedIsReadAlike, EmptyCommentsAreNone};
ghost use Rattle.script_comments.specs.Along.{CommentsFollowTheBank, CommentsAlongAreComments};

/// The comment of an edit is a comment, on one line, in each sound bank.
pub fn comments_are_comments()
    ensures { CommentsAreComments }
{}

/// Lines with comments encode the same edits as the lines without, on the same lines.
pub fn comments_are_skipped()
    ensures in_turn { CommentsAreSkipped }
    ensures each { EachCommentIsSkipped }
    ensures alike { CommentedIsReadAlike }
{}

/// Lines with empty comments are the lines without.
pub fn empty_comments_are_none()
    ensures { EmptyCommentsAreNone }
{}

/// The comment of each edit has the names of the bank after the edits before it, and is a comment if the bank accepts the
/// edits.
pub fn comments_follow_the_bank()
    ensures names { CommentsFollowTheBank }
    ensures comments { CommentsAlongAreComments }
{}
