// What an answered question gives, and what a host sees of it.
ghost use Rattle.std.specs.Prelude.{◌≡◌};
ghost use Rattle.index.specs.Build.{reply_in};
ghost use Rattle.index.specs.Answered.{only, reply_of};

use crate::Reply;
use limits::refusal::Refusal;

// The value, and a second number where the answer has two, else 0.
#[derive(Clone, Copy)]
pub struct Answered {
    pub value: u32,
    pub second: u32,
}

impl From<u32> for Answered {
    ghost from_gives = { λ value given. given ≡ only value };

    fn from(value: u32) -> Answered {
        Answered { value, second: 0 }
    }
}

// A refusal's place is 0.
impl From<Result<Answered, Refusal>> for Reply {
    ghost from_gives = { λ given reply. reply_in reply ≡ reply_of given };

    fn from(given: Result<Answered, Refusal>) -> Reply {
        match given {
            Ok(a) => Reply {
                refusal: 0,
                value: a.value,
                second: a.second,
                third: 0,
            },
            Err(refusal) => Reply {
                refusal: refusal.number(),
                value: 0,
                second: 0,
                third: 0,
            },
        }
    }
}
