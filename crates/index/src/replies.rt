// What a call gives back to the C host.
ghost use Rattle.std.specs.Prelude.{◌≡◌};
ghost use Rattle.limits.specs.Refusals.{checked, checked_in};
ghost use Rattle.index.specs.Build.{reply_in, reply_of};

use crate::{Reply, answered};
use limits::refusal::{Fault, Refusal};

impl From<Result<u32, Fault>> for Reply {
    ghost from_gives = { λ given reply. reply_in reply ≡ reply_of (checked_in given) };

    fn from(given: Result<u32, Fault>) -> Reply {
        match given {
            Ok(value) => answered(0, value),
            Err(fault) => answered(fault.refusal.number(), fault.place),
        }
    }
}

// Where each refusal has place 0.
impl From<Result<u32, Refusal>> for Reply {
    ghost from_gives = { λ given reply. reply_in reply ≡ reply_of (checked given) };

    fn from(given: Result<u32, Refusal>) -> Reply {
        match given {
            Ok(value) => answered(0, value),
            Err(refusal) => answered(refusal.number(), 0),
        }
    }
}
