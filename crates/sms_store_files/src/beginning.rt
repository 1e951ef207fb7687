//! A log whose database is missing.
ghost use Rattle.std.specs.Prelude.{◌↔◌, IsTrue};
ghost use Rattle.sms_store_files.specs.Beginning.{IsLogAlone};

// What a log has that was written back and cut.
const EMPTIED: u64 = 41;

/// Whether a database of so many octets is missing or empty, while its log of so many octets has more than its head.
pub fn is_log_alone(file: u64, log: u64) -> bool
    ensures { IsTrue result ↔ IsLogAlone file log }
{
    file == 0 && log > EMPTIED
}
