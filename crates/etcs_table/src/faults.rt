//! Checks: tests, each with the fault that it finds.

ghost use Rattle.std.specs.Prelude.{◌≡◌};
ghost use Rattle.etcs_table.specs.Faults.{first_fault};

use crate::error::TableFault;

/// The fault of the first check that holds.
pub(crate) fn first_fault(checks: &[(bool, TableFault)]) -> Option<TableFault>
    ensures { result ≡ first_fault checks.now }
{
    for check in checks {
        if check.0 {
            return Some(check.1);
        }
    }
    None
}
