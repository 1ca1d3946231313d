//! Disks: what one tells of its pages, and what its calls promise.

ghost use Rattle.std.specs.Prelude.{◌≡◌, ℕ, ◌+◌, Option, OnOk, OnErr};
ghost use Rattle.cc_traits.specs.Stop.{faults_in, OnFailed, OnNoMemory};
ghost use Rattle.cc_traits.specs.Told.{Both, IfTold};
ghost use Rattle.cc_traits.specs.Disk.{Disk, Found, Wrote, WriteFailed, Settled};

use crate::Stop;

/// What a disk tells. It stands apart from [`PageDisk`], for code that only holds a disk and makes no call of it.
pub trait Told {
    // The content of each page, and what a crash now can leave.
    ghost told: { Self → Option Disk };

    // How many calls failed, a number below 2 ^ 64.
    ghost faults: { Self → ℕ };
}

/// A disk of pages of 4096 bytes, numbered from 0. A number is below 2 ^ 64.
pub trait PageDisk: Told {
    /// Reads a page. What `out` has where the call stops is left open.
    fn read_page(&mut self, page: u64, out: &mut [u8; 4096]) -> Result<(), Stop>
        ensures found { OnOk result (IfTold (Self.told self.old) (Found page out.new)) }
        ensures stays { Self.told self.new ≡ Self.told self.old }
        ensures counted { Self.faults self.new ≡ Self.faults self.old + faults_in result };

    /// Writes a page. Where it fails, the page holds one of the contents that a crash can leave, if it did before.
    fn write_page(&mut self, page: u64, bytes: &[u8; 4096]) -> Result<(), Stop>
        ensures wrote { OnOk result
            (Both (Self.told self.old) (Self.told self.new) (Wrote page bytes.now)) }
        ensures failed { OnFailed result
            (Both (Self.told self.old) (Self.told self.new) (WriteFailed page bytes.now)) }
        ensures no_memory { OnNoMemory result (Self.told self.new ≡ Self.told self.old) }
        ensures counted { Self.faults self.new ≡ Self.faults self.old + faults_in result };

    /// Waits until all that was written is on the medium.
    fn sync(&mut self) -> Result<(), Stop>
        ensures settled { OnOk result (Both (Self.told self.old) (Self.told self.new) Settled) }
        ensures err { OnErr result (Self.told self.new ≡ Self.told self.old) }
        ensures counted { Self.faults self.new ≡ Self.faults self.old + faults_in result };
}
