// The encoding of records.
ghost use Rattle.records.specs.Encoding.{ReadsBack};

// What is encoded by the rules reads back as it was, and reading never goes past the trace.
pub fn encoding_reads_back()
    ensures { ReadsBack }
{}
