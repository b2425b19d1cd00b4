// The figures of documents 01 and 02 as the code has them, each named once. `named_once` promises that they are those of the definitions (truss: Limits), so a limit is
// changed by its line there and its line here.
#![tactic(auto)]

ghost use Rattle.std.specs.Prelude.{◌≡◌};
ghost use Rattle.truss.specs.Limits.{desk_length, margin_length, max_accounts, max_level, max_limit, max_links, max_named, max_records, max_stake, max_strength, max_tally, min_level, min_stake, min_strength, no_group, record_length, tally_length, windows};
ghost use Rattle.truss.specs.Question.{bad_level};
ghost use Rattle.limits.specs.Range.{strength_of};

pub mod refusal;

pub const MOST_ACCOUNTS: usize = 1024;

pub const MOST_LINKS: usize = 2048;

// The most accounts that a question names.
pub const MOST_NAMED: usize = 16;

// No group: the parent of a group that no other contains. No record of a link has it; in the code it is also the group at k of a link that is weaker than k.
pub const NO_GROUP: usize = 65535;

// Where a tally rests, and its bytes in a desk record.
pub const MOST_TALLY: u32 = 4294967295;

pub const TALLY_BYTES: usize = 4;

// The windows of a desk, numbered from 0, and the bytes of its record: a tally for each.
pub const WINDOWS: usize = 32;

pub const DESK_BYTES: usize = WINDOWS * TALLY_BYTES;

// The most records of a day's bets, the least and the greatest stake, and the greatest limit, in pence.
pub const MOST_RECORDS: usize = 4096;

pub const LEAST_STAKE: usize = 1;

pub const MOST_STAKE: usize = 1000000;

pub const MOST_LIMIT: usize = 1000000000;

// The bytes of a record and of a margin, from C.
pub const RECORD_BYTES: usize = 9;

pub const MARGIN_BYTES: usize = 8;

// A strength: a number from MIN to MAX. Another crate gets one from `of` alone, or these two.
#[derive(Clone, Copy)]
pub struct Strength(usize);

impl Strength {
    pub const MIN: Strength = Strength(2);

    pub const MAX: Strength = Strength(64);

    // The strength of that number, if it is one. No `TryFrom`: a number is no strength in one way alone, so there is no error to name.
    pub fn of(x: usize) -> Option<Strength>
        ensures { result ≡ strength_of x }
    {
        if x < Strength::MIN.0 {
            return None;
        }
        if Strength::MAX.0 < x {
            return None;
        }
        Some(Strength(x))
    }

    pub fn number(self) -> usize
        ensures { result ≡ self.0 }
    {
        self.0
    }
}

// The least level at which there are groups is the least strength, at which a link is a group of its own; the greatest is the greatest strength.
pub const LEAST_LEVEL: usize = Strength::MIN.0;

// Refusal 10: no level.
pub fn bad_level(k: usize) -> bool
    ensures { result ≡ bad_level k }
{
    if k < LEAST_LEVEL {
        return true;
    }
    Strength::MAX.0 < k
}

// The figures as one value: of the definitions' limits those of accounts, links, named accounts, no group, a tally (its rest, its bytes), a desk (its windows, its
// bytes), strengths and levels, and of a day's bets.
#[derive(Clone, Copy)]
pub struct Figures {
    pub accounts: usize,
    pub links: usize,
    pub named: usize,
    pub none: usize,
    pub rest: u32,
    pub bytes: usize,
    pub windows: usize,
    pub desk: usize,
    pub weakest: usize,
    pub strongest: usize,
    pub lowest: usize,
    pub highest: usize,
    pub bets: BetFigures,
}

// Those of a day's bets: records, stakes, limits, and the bytes of a record and of a margin.
#[derive(Clone, Copy)]
pub struct BetFigures {
    pub records: usize,
    pub least: usize,
    pub most: usize,
    pub limit: usize,
    pub bytes: usize,
    pub margin: usize,
}

pub fn named_once() -> Figures
    ensures accounts_value { (result.accounts ≡ max_accounts) × (result.links ≡ max_links) × (result.named ≡ max_named) × (result.none ≡ no_group) }
    ensures rest_value { (result.rest ≡ max_tally) × (result.bytes ≡ tally_length) × (result.windows ≡ windows) × (result.desk ≡ desk_length) }
    ensures weakest_value { (result.weakest ≡ min_strength) × (result.strongest ≡ max_strength) × (result.lowest ≡ min_level) × (result.highest ≡ max_level) }
    ensures records_value { (result.bets.records ≡ max_records) × (result.bets.least ≡ min_stake) × (result.bets.most ≡ max_stake) × (result.bets.limit ≡ max_limit) }
    ensures bytes_value { (result.bets.bytes ≡ record_length) × (result.bets.margin ≡ margin_length) }
{
    Figures {
        accounts: MOST_ACCOUNTS,
        links: MOST_LINKS,
        named: MOST_NAMED,
        none: NO_GROUP,
        rest: MOST_TALLY,
        bytes: TALLY_BYTES,
        windows: WINDOWS,
        desk: DESK_BYTES,
        weakest: Strength::MIN.0,
        strongest: Strength::MAX.0,
        lowest: LEAST_LEVEL,
        highest: Strength::MAX.0,
        bets: BetFigures {
            records: MOST_RECORDS,
            least: LEAST_STAKE,
            most: MOST_STAKE,
            limit: MOST_LIMIT,
            bytes: RECORD_BYTES,
            margin: MARGIN_BYTES,
        },
    }
}
