ghost use Rattle.std.specs.Prelude.{◌≡◌, Ok, IfOk};

use std::io;
use xc_host::{Fault, HostErr};

// Each error of the system is a fault, whatever its cause.
pub(crate) fn or_fault<T: Drop>(done: io::Result<T>) -> Result<T, Fault>
    ensures value { IfOk result (λ value. done ≡ Ok value) }
{
    match done {
        Ok(value) => Ok(value),
        Err(_) => Err(Fault),
    }
}

// The fault of a call that can run out of memory too.
pub(crate) fn or_host_fault<T: Drop>(done: Result<T, Fault>) -> Result<T, HostErr>
    ensures value { IfOk result (λ value. done ≡ Ok value) }
{
    match done {
        Ok(value) => Ok(value),
        Err(Fault) => Err(HostErr::Fault),
    }
}
