//! The restart of each log that a script restarts.

ghost use Rattle.std.specs.Prelude.{◌≡◌, ◌<◌, ◌≤◌, All, IfOk, OnErr, [], length, vec_capacity};
ghost use Rattle.cc_restarts.specs.Restarting.{LogRestarted, LogsRestarted, numbers_of, with_handle};

use crate::ended::{LogRestart, Numbers};
use crate::given::given_to;
use cc_entry::{CcError, Lsn, NoMemory};
use cc_redo::{Restarted, restart};
use cc_script::{RestartLine, Script, StreamLine};
use cc_traits::{LogFile, PageDisk};
use std::alloc::Global;

/// Restarts the stored streams of each log that a script restarts, one line after the other, and answers how each ended. Where
/// one is refused, the others are restarted.
///
/// `NoMemory`, with no call of a disk or a log.
pub fn restart_script<D: PageDisk, L: LogFile>(
    alloc: Global,
    script: &Script,
    logs: &mut [L],
    disks: &mut [D],
) -> Result<Vec<LogRestart>, NoMemory>
    requires handles { All (λ restart. restart.handle < length logs.old) script.now.restarts }
    requires enough { length script.now.streams ≤ length disks.old }
    ensures restarted { IfOk result (λ ended. LogsRestarted D.told D.faults L.told L.faults script.now.streams
        script.now.restarts ended.items disks.old disks.new logs.old logs.new) }
    ensures disks_kept { OnErr result (disks.new ≡ disks.old) }
    ensures logs_kept { OnErr result (logs.new ≡ logs.old) }
{
    let restarts = script.restarts.as_slice();
    let mut ended = Vec::with_capacity(alloc, restarts.len())?;
    restart_logs(
        alloc,
        script.streams.as_slice(),
        restarts,
        logs,
        disks,
        &mut ended,
    );
    Ok(ended)
}

// Restarts the logs that lines name, and puts how each ended into the room that is there.
fn restart_logs<D: PageDisk, L: LogFile>(
    alloc: Global,
    streams: &[StreamLine],
    restarts: &[RestartLine],
    logs: &mut [L],
    disks: &mut [D],
    ended: &mut Vec<LogRestart>,
)
    requires handles { All (λ restart. restart.handle < length logs.old) restarts.now }
    requires enough { length streams.now ≤ length disks.old }
    requires few { length streams.now ≤ 16 }
    requires none { ended.old.items ≡ [] }
    requires room { length restarts.now ≤ vec_capacity ended.old }
    ensures restarted { LogsRestarted D.told D.faults L.told L.faults streams.now restarts.now ended.new.items
        disks.old disks.new logs.old logs.new }
{
    for restart in restarts {
        let handle = restart.handle;
        let log = &mut logs[usize::from(handle)];
        let answer = restart_log(alloc, streams, handle, log, disks);
        ended.push_reserved(LogRestart {
            line: restart.line,
            handle,
            ended: answer,
        });
    }
}

// Restarts the stored streams of a log.
fn restart_log<D: PageDisk, L: LogFile>(
    alloc: Global,
    streams: &[StreamLine],
    handle: u8,
    log: &mut L,
    disks: &mut [D],
) -> Result<Numbers, CcError>
    requires enough { length streams.now ≤ length disks.old }
    requires few { length streams.now ≤ 16 }
    ensures { LogRestarted D.told D.faults L.told L.faults handle streams.now result disks.old disks.new log.old log.new }
{
    let given = given_to(alloc, streams, handle, disks)?;
    let answer = restart(alloc, log, &given, disks);
    numbers_of(answer, handle)
}

// What is kept of the answer of a restart; the fault of a log has its handle.
fn numbers_of(answer: Result<Restarted, CcError>, handle: u8) -> Result<Numbers, CcError>
    ensures { result ≡ numbers_of handle answer }
{
    match answer {
        Ok(done) => Ok(Numbers {
            last: Lsn::new(done.last),
            updates: done.updates,
        }),
        Err(error) => Err(with_handle(error, handle)),
    }
}

// The fault of a log as that of its handle.
fn with_handle(error: CcError, handle: u8) -> CcError
    ensures { result ≡ with_handle handle error }
{
    match error {
        CcError::LogFault { .. } => CcError::LogFault {
            handle: u64::from(handle),
        },
        _ => error,
    }
}
