//! The laws of a bank as edits and as text.
ghost use Rattle.script_of_bank.specs.LeadsTo.{GivesBank, LeadsAnywhere};
ghost use Rattle.script_of_bank.specs.BankScript.{TextGivesBank, TextListsEdits, TextDeterminesBank, ReplacementLeads};

/// The edits that list a sound bank are accepted in order by the empty bank of its minor version, and lead to
/// the bank.
pub fn edits_give_bank()
    ensures { GivesBank }
{}

/// A sound bank leads to any other sound bank of its minor version by edits that are accepted in order.
pub fn edits_lead_anywhere()
    ensures { LeadsAnywhere }
{}

/// A sound bank's text is a script whose edits are accepted in order by the empty bank, and lead to the bank.
pub fn text_gives_bank()
    ensures { TextGivesBank }
{}

/// A sound bank's text, with or without points, is a script of the edits that list the bank, from line 2 on.
pub fn text_lists_edits()
    ensures { TextListsEdits }
{}

/// Two different sound banks have different texts.
pub fn text_determines_bank()
    ensures { TextDeterminesBank }
{}

/// The text that replaces a sound bank with another of its minor version is a script whose edits are accepted
/// in order, and lead from the first bank to the second.
pub fn replacement_leads()
    ensures { ReplacementLeads }
{}
