//! The text loses nothing.
ghost use Rattle.td_model.specs.Printable.{ATextTellsItsReport};

/// The law that the text of a report tells the report, so that different reports have different texts. It holds of all
/// reports whose numbers are in the range of their types, whose names are words, and whose header items aren't empty
/// and have no comma and no byte below 32. Rows may be of any width, and texts in cells may hold any bytes.
pub fn a_text_tells_its_report()
    ensures { ATextTellsItsReport }
{}
