// Records and two-byte fields in lent bytes: kinds and body lengths, reading and writing. No graphs.
#![tactic(auto)]

ghost use Rattle.std.specs.Prelude.{◌≡◌, ◌+◌, ◌*◌, ◌/◌, ◌%◌, ◌<◌, ◌≤◌, length, take, MatchOption};
ghost use Rattle.std.proofs.Math.Option.{none, some};
ghost use Rattle.truss.specs.Record.{body_length, field, field_at, head_bytes, whole};
ghost use Rattle.truss.specs.LinksFile.{pair_bytes};
ghost use Rattle.truss.specs.Index.{link_bytes, join_bytes, group_bytes};
ghost use Rattle.wire.specs.Writing.{Tells, written};

// A kind is a number and no enum: any byte may stand where one is due, and `body_length` is asked of it.

// The head with which a links file begins.
pub const HEAD: u8 = 1;

pub const STRONG_LINK: u8 = 2;

pub const JOIN: u8 = 3;

pub const GROUP: u8 = 4;

pub const END: u8 = 5;

pub const PLAIN_LINK: u8 = 6;

// The head with which an index begins.
pub const INDEX_HEAD: u8 = 7;

// The body length that a kind fixes; an unknown kind has none, which is refusal 1. Today only kinds 1, 2, 5, 6 and 7 are looked for by it, so the other arms never run: the
// match is the table of the documents as it stands.
#[tactic(auto, using(crate::specs::Wire::unknown), unfolding(truss::specs::Record::body_length))]
fn body_length(kind: u8) -> Option<usize>
    ensures { MatchOption result (body_length kind ≡ none) (λ l. body_length kind ≡ some l) }
{
    match kind {
        HEAD => Some(4),
        STRONG_LINK => Some(7),
        JOIN => Some(5),
        GROUP => Some(5),
        END => Some(0),
        PLAIN_LINK => Some(4),
        INDEX_HEAD => Some(4),
        _ => None,
    }
}

// The two-byte field at a place.
pub fn field_at(s: &[u8], at: usize) -> usize
    requires { at + 1 < length s.now }
    ensures { (result ≡ field_at s.now at) × (result < 65536) }
{
    usize::from(u16::from_be_bytes([s[at], s[at + 1]]))
}

// Whether a whole record of a kind stands at a place.
#[tactic(auto, unfolding(truss::specs::Record::holds_body))]
pub fn whole_record(s: &[u8], at: usize, kind: u8) -> bool
    ensures { result ≡ whole s.now at kind }
{
    at < s.len() && s[at] == kind && body_length(kind).is_some_and(|l| l < s.len() - at)
}

// A record over the front of what is lent.
#[tactic(auto, unfolding(crate::specs::Writing::written))]
pub fn paste(out: &mut [u8], rec: &[u8])
    requires { length rec.now ≤ length out.old }
    ensures { out.new ≡ written out.old 0 rec.now }
{
    out[..rec.len()].copy_from_slice(rec);
}

// Whether a record stands at the front of the bytes.
pub fn stands(s: &[u8], rec: &[u8]) -> bool
    requires { length rec.now ≤ length s.now }
    ensures { Tells result (take (length rec.now) s.now ≡ rec.now) }
{
    s.starts_with(rec)
}

// The bytes of a field.
fn high(x: usize) -> u8
    ensures { result ≡ x / 256 % 256 }
{
    x.to_be_bytes()[6]
}

fn low(x: usize) -> u8
    ensures { result ≡ x % 256 }
{
    x.to_be_bytes()[7]
}

// A two-byte field.
pub fn field_record(x: usize) -> [u8; 2]
    ensures { result ≡ field x }
{
    [high(x), low(x)]
}

// A head: kind, accounts, links.
pub fn head_record(kind: u8, n: usize, m: usize) -> [u8; 5]
    ensures { result ≡ head_bytes kind n m }
{
    [kind, high(n), low(n), high(m), low(m)]
}

// A plain link: a head of its kind with two accounts.
pub fn pair_record(a: usize, b: usize) -> [u8; 5]
    ensures { result ≡ pair_bytes (record { first = a; second = b }) }
{
    head_record(PLAIN_LINK, a, b)
}

// A strong link: its accounts, strength and group.
pub fn link_record(a: usize, b: usize, k: usize, g: usize) -> [u8; 8]
    requires { k < 256 }
    ensures { result ≡ link_bytes (record { lo = a; hi = b; strength = k; group = g }) }
{
    [
        STRONG_LINK,
        high(a),
        low(a),
        high(b),
        low(b),
        k as u8,
        high(g),
        low(g),
    ]
}

// A join: its links and weight.
pub fn join_record(a: usize, b: usize, k: usize) -> [u8; 6]
    requires { k < 256 }
    ensures { result ≡ join_bytes (record { lower = a; higher = b; weight = k }) }
{
    [JOIN, high(a), low(a), high(b), low(b), k as u8]
}

// A group: its parent, strength and least link.
pub fn group_record(p: usize, k: usize, e: usize) -> [u8; 6]
    requires { k < 256 }
    ensures { result ≡ group_bytes (record { parent = p; strength = k; least = e }) }
{
    [GROUP, high(p), low(p), k as u8, high(e), low(e)]
}
