//! Laws of the reports that runs write.
ghost use Rattle.td_top.specs.Laws.{PlayedReportsArePrintable, TextsTellReports, BytesTellReports};

use td_report::a_text_tells_its_report;

/// The report of a script that was played can be printed, where the store told its image: its numbers are in the range
/// of their types, its names are words, and the items of its headers aren't empty and have no comma.
pub fn played_reports_are_printable()
    ensures { PlayedReportsArePrintable }
{}

/// What was written tells the report, where the stores told their images: two scripts that were played with one text
/// have one report; and so have two runs that are done and whose sinks took the same bytes.
pub fn texts_tell_reports()
    ensures texts { TextsTellReports }
    ensures bytes { BytesTellReports }
{
    a_text_tells_its_report();
}
