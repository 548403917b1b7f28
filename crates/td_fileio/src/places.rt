//! Faults in a part of a file as places in the file.
ghost use Rattle.std.specs.Prelude.{◌≡◌, ◌+◌, ◌-◌, ◌<◌, ◌^◌, Ok, Err};
ghost use Rattle.td_codec.specs.declared.fault.ReadFault.TheVariants as faults;
ghost use Rattle.td_fileio.specs.Faults.{scan_fault_of};

use td_codec::ReadFault;
use td_layer::ScanFault;

/// Why a part of a file, by its number, of so many bytes at a place wasn't read.
pub fn placed(file: u64, at: u64, long: usize, fault: ReadFault) -> ScanFault
    requires { at + long < 2 ^ 64 }
    ensures { result ≡ scan_fault_of file at long fault }
{
    match fault {
        ReadFault::NoMemory => ScanFault::NoMemory,
        ReadFault::Broken(left) => ScanFault::Damaged {
            file,
            at: at + long.saturating_sub(left) as u64,
        },
    }
}
