//! A law on logs, which does nothing.
ghost use Rattle.bds_value.specs.Fields.{IsField};
ghost use Rattle.bds_replay.specs.Log.{IsFieldLog, log_at, log_field};

/// The log that is spelled is read back, and what is read is spelled so.
pub fn logs_are_read_back()
    ensures { IsField log_at log_field IsFieldLog }
{}
