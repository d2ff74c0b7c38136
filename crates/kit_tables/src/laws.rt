//! The law of tables as text.
ghost use Rattle.kit_tables.specs.RowTexts.{TablesReadBack};

/// A table that is written reads as its zones, each with its file; its comments say nothing.
#[tactic(auto, using(crate::proofs::RowTextLaws::tables_read_back))]
pub fn tables_read_back()
    ensures { TablesReadBack }
{}
