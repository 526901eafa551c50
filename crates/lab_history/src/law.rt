ghost use Rattle.lab_history.specs.ReadsBack.{HistoryReadsBack};

/// The printed text of any events, whose numbers fit, is read back as these events.
pub fn printed_history_reads_back()
    ensures { HistoryReadsBack }
{}
