// Laws of texts: each function is empty, and its clauses are the law.
ghost use Rattle.std.specs.Prelude.{◌≡◌, ◌<◌, None};
ghost use Rattle.std.specs.List.{position_or_len};
ghost use Rattle.cs_stream.specs.Rows.{rows_of};
ghost use Rattle.cs_stream.specs.Lines.{is_newline};
ghost use Rattle.cs_stream.specs.Reading.{fault_of, stimulus_rows};
ghost use Rattle.cs_stream.specs.Printing.{response_text};

use crate::stimulus::Stimulus;

/// A printed response is read without a fault at its width, and gives its rows again. Where it has rows, its text
/// shows its width.
pub fn printed_reads_back(rows: &Stimulus)
    ensures faultless { fault_of rows.now.width (response_text (rows_of rows.now)) ≡ None }
    ensures rows { stimulus_rows (response_text (rows_of rows.now)) ≡ rows_of rows.now }
    ensures width { 0 < rows.now.count
        → position_or_len is_newline (response_text (rows_of rows.now)) ≡ rows.now.width }
{}
