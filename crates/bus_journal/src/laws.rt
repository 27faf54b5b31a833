//! Laws over the lines of entries, and over reports.

ghost use Rattle.bus_journal.specs.Ranges.{LinesAreDistinct};
ghost use Rattle.bus_journal.specs.Reports.{ReportsAreDistinct};

/// Two entries with one line are one entry.
pub fn a_line_tells_its_entry()
    ensures { LinesAreDistinct }
{}

/// Two reports of the same bytes, whose sections have no line `journal`, tell of the same entries.
pub fn a_report_tells_its_journal()
    ensures { ReportsAreDistinct }
{}
