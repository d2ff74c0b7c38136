//! A law of the table, as a function that does nothing: the law is the contract.
ghost use Rattle.generator_rows.specs.Laws.{RowsAreOfUsableOperators, RowsHaveDefaultsOfSound, RowsShowPlayed};
ghost use Rattle.generator_rows.specs.Laws.{RowsShowRanges};

/// The rows are those of all operators that a zone may have, with the defaults of the sound. Each text of a range has its
/// two numbers.
pub fn rows_follow_the_rules()
    ensures operators { RowsAreOfUsableOperators }
    ensures defaults { RowsHaveDefaultsOfSound }
    ensures played { RowsShowPlayed }
    ensures ranges { RowsShowRanges }
{}
