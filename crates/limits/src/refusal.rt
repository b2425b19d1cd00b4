// Why a call is refused. Each call checks in an order of its own, which its contract states; a host sees the number.
ghost use Rattle.std.specs.Prelude.{◌≡◌};
ghost use Rattle.limits.specs.Refusals.{number_of, at_no_place};

#[derive(Clone, Copy, Debug, PartialEq, Eq)]
pub enum Refusal {
    // Of a links file: no such record where one is due, or bytes after the last; accounts out of range; links out of range; an account that the head does not name; a link of
    // an account with itself; a pair that is there already.
    Record = 1,
    Accounts = 2,
    Links = 3,
    Beyond = 4,
    EqualEnds = 5,
    Repeated = 6,
    // Bytes that are no index.
    NoIndex = 7,
    // Of a question or a change: how many accounts are named; an account that the index does not have; a level at which there are no groups; a pair that is no link; a buffer
    // that is too short; no such window; a pair that is a link already.
    Named = 8,
    NoAccount = 9,
    NoLevel = 10,
    NoLink = 11,
    NoRoom = 12,
    NoWindow = 13,
    LinkThere = 14,
    // Of a day's bets: a stake or limit out of range; too many records.
    Amount = 15,
    Records = 16,
}

impl Refusal {
    // Its number.
    pub fn number(self) -> u32
        ensures { result ≡ number_of self }
    {
        self as u32
    }
}

// A refusal and its place, which is 0 but for those of a links file's records.
#[derive(Clone, Copy, Debug, PartialEq, Eq)]
pub struct Fault {
    pub refusal: Refusal,
    pub place: u32,
}

impl From<Refusal> for Fault {
    ghost from_gives = { λ refusal fault. fault ≡ at_no_place refusal };

    fn from(refusal: Refusal) -> Fault {
        Fault { refusal, place: 0 }
    }
}
