//! The law of logs in text. A call does nothing: its contract is the law.
ghost use Rattle.std.specs.Prelude.{◌≡◌, List, Ok};
ghost use Rattle.log_check.specs.declared.lines.LogLine.{LogLine};
ghost use Rattle.log_texts.specs.LogText.{log_text};
ghost use Rattle.log_texts.specs.Reading.{log_read};
ghost use Rattle.log_texts.specs.ReadBack.{IsPrintableLog};

/// What is written of a log is read back as that log.
pub fn log_text_reads_back()
    ensures { (lines : List LogLine) → IsPrintableLog lines
        → log_read (log_text lines) ≡ Ok lines }
{}
