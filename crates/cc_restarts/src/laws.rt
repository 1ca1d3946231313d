//! What follows of all restarts of a script.

ghost use Rattle.std.specs.Prelude.{◌≡◌, ◌≢◌, ℕ, List, false, map, slice_get};
ghost use Rattle.std.specs.List.{All, AllByRecursion, list_any};
ghost use Rattle.cc_script.specs.declared.script.RestartLine.{RestartLine};
ghost use Rattle.cc_script.specs.declared.script.StreamLine.{StreamLine};
ghost use Rattle.cc_restarts.specs.Restarting.{IsNotRestarted, IsOwnRefusal, LogsRestarted};
ghost use Rattle.cc_restarts.specs.Whole.{HaveNotFallen, HaveNotRisen, LogsTell, has_failed};
ghost use Rattle.cc_restarts.specs.declared.ended.LogRestart.{LogRestart};

use cc_traits::{LogFile, PageDisk};

/// Restarts leave as many disks and logs, and no count of faults falls. Where none rose, no restart ended by a fault.
pub fn restarts_are_counted<D: PageDisk, L: LogFile>()
    ensures disks { (streams : List StreamLine) → (restarts : List RestartLine) → (ended : List LogRestart) →
        (old new : List D) → (logs logs_after : List L) →
        LogsRestarted D.told D.faults L.told L.faults streams restarts ended old new logs logs_after →
        HaveNotFallen D.faults old new }
    ensures logs { (streams : List StreamLine) → (restarts : List RestartLine) → (ended : List LogRestart) →
        (old new : List D) → (logs logs_after : List L) →
        LogsRestarted D.told D.faults L.told L.faults streams restarts ended old new logs logs_after →
        HaveNotFallen L.faults logs logs_after }
    ensures faultless { (streams : List StreamLine) → (restarts : List RestartLine) → (ended : List LogRestart) →
        (old new : List D) → (logs logs_after : List L) →
        LogsRestarted D.told D.faults L.told L.faults streams restarts ended old new logs logs_after →
        HaveNotRisen D.faults old new → HaveNotRisen L.faults logs logs_after →
        list_any (λ restart. has_failed restart.ended) ended ≡ false }
{}

/// A restart is refused because its log is too long or failed, a disk failed, or memory was wanting, and else by nothing.
pub fn restarts_have_refusals_of_their_own<D: PageDisk, L: LogFile>()
    ensures { (streams : List StreamLine) → (restarts : List RestartLine) → (ended : List LogRestart) →
        (old new : List D) → (logs logs_after : List L) →
        LogsRestarted D.told D.faults L.told L.faults streams restarts ended old new logs logs_after →
        AllByRecursion (λ restart. IsOwnRefusal restart.ended) ended }
{}

/// Restarts leave each log telling what it told, answer the lines of the script in their order, and leave as they were the disk
/// of a stream that is restarted from none of the logs, and the log of no restart.
pub fn restarts_keep_what_they_are_not_given<D: PageDisk, L: LogFile>()
    ensures logs { (streams : List StreamLine) → (restarts : List RestartLine) → (ended : List LogRestart) →
        (old new : List D) → (logs logs_after : List L) →
        LogsRestarted D.told D.faults L.told L.faults streams restarts ended old new logs logs_after →
        LogsTell L.told logs logs_after }
    ensures lines { (streams : List StreamLine) → (restarts : List RestartLine) → (ended : List LogRestart) →
        (old new : List D) → (logs logs_after : List L) →
        LogsRestarted D.told D.faults L.told L.faults streams restarts ended old new logs logs_after →
        map (λ restart. restart.line) ended ≡ map (λ restart. restart.line) restarts }
    ensures handles { (streams : List StreamLine) → (restarts : List RestartLine) → (ended : List LogRestart) →
        (old new : List D) → (logs logs_after : List L) →
        LogsRestarted D.told D.faults L.told L.faults streams restarts ended old new logs logs_after →
        map (λ restart. restart.handle) ended ≡ map (λ restart. restart.handle) restarts }
    ensures disks { (streams : List StreamLine) → (restarts : List RestartLine) → (ended : List LogRestart) →
        (old new : List D) → (logs logs_after : List L) →
        LogsRestarted D.told D.faults L.told L.faults streams restarts ended old new logs logs_after → (s : ℕ) →
        All (λ restart. IsNotRestarted restart.handle streams s) restarts → slice_get new s ≡ slice_get old s }
    ensures others { (streams : List StreamLine) → (restarts : List RestartLine) → (ended : List LogRestart) →
        (old new : List D) → (logs logs_after : List L) →
        LogsRestarted D.told D.faults L.told L.faults streams restarts ended old new logs logs_after → (k : ℕ) →
        All (λ restart. restart.handle ≢ k) restarts → slice_get logs_after k ≡ slice_get logs k }
{}
