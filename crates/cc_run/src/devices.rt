//! Whether what is handed in is enough for a script.

ghost use Rattle.std.specs.Prelude.{◌≡◌, nat_lt};
ghost use Rattle.std.specs.List.{list_all};
ghost use Rattle.cc_program.specs.Ends.{has_devices, is_log_given};

use cc_script::{RestartLine, Script, StreamLine};

/// Whether there is a disk for each stream of a script, each log that a stream or a restart names, and a post routine for each line that
/// defers a write.
pub(crate) fn has_devices(script: &Script, disks: usize, logs: usize, posts: usize) -> bool
    ensures { result ≡ has_devices disks logs posts script.now }
{
    script.streams.len() <= disks
        && has_logs(script.streams.as_slice(), logs)
        && has_restarted(script.restarts.as_slice(), logs)
        && script.defers() <= posts
}

/// Whether each stream that names a log names one of so many.
fn has_logs(streams: &[StreamLine], logs: usize) -> bool
    ensures { result ≡ list_all (λ stream. is_log_given logs stream.log) streams.now }
{
    streams.iter().all(|stream| has_log(stream.log, logs))
}

/// Whether each log that is restarted is one of so many.
fn has_restarted(restarts: &[RestartLine], logs: usize) -> bool
    ensures { result ≡ list_all (λ restart. nat_lt restart.handle logs) restarts.now }
{
    restarts
        .iter()
        .all(|restart| usize::from(restart.handle) < logs)
}

/// Whether a log is one of so many, where one is named.
fn has_log(log: Option<u8>, logs: usize) -> bool
    ensures { result ≡ is_log_given logs log }
{
    match log {
        Some(handle) => usize::from(handle) < logs,
        None => true,
    }
}
