//! The law of pages. The function does nothing: the law is its contract.
ghost use Rattle.show_page.specs.Laws.{DataHasNoMarkup};

/// The law that the data of a page has no `<`, so that no name or text of a bank ends the data's element or begins
/// another one.
pub fn data_has_no_markup()
    ensures { DataHasNoMarkup }
{}
