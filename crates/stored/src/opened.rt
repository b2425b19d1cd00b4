// An index whose bytes were opened: with its numbers, so that nobody has to look for them again.
ghost use Rattle.stored.specs.Opened.{Shape-prop};
ghost use Rattle.stored.specs.Rows.{Shape};

use index::open::open;
use limits::refusal::Refusal;

#[derive(Clone, Copy)]
pub struct Index<'a> {
    pub bytes: &'a [u8],
    // How many accounts and links it has, where its groups stand, and how many they are.
    pub n: usize,
    pub m: usize,
    pub at: usize,
    pub groups: usize,
    pub ghost shape: { Shape bytes.now n m at groups } by { Shape-prop bytes.now n m at groups },
}

impl<'a> Index<'a> {
    ghost use Rattle.std.specs.Prelude.{◌≡◌, ◌*◌, ◌≤◌, length};
    ghost use Rattle.truss.specs.Limits.{max_links};
    ghost use Rattle.truss.specs.Record.{kind_index_head};
    ghost use Rattle.truss.specs.LinksFile.{read_head};
    ghost use Rattle.columns.specs.Columns.{COLUMNS};
    ghost use Rattle.index.specs.Open.{cleared};
    ghost use Rattle.stored.specs.Opening.{Opens};

    // The index that bytes are; refused are bytes that are none. What is lent for the work space is 0 afterwards in its sixteen numbers for each link that a good head names; the
    // rest stays.
    pub fn open(bytes: &'a [u8], work: &mut [u32]) -> Result<Index<'a>, Refusal>
        requires { COLUMNS * max_links ≤ length work.old }
        ensures opens { Opens bytes.now result work.new }
        ensures work_after { work.new ≡ cleared (read_head kind_index_head bytes.now) work.old }
    {
        match open(bytes, work) {
            None => Err(Refusal::NoIndex),
            Some(o) => Ok(Index {
                bytes,
                n: o.n,
                m: o.m,
                at: o.at,
                groups: o.groups,
            }),
        }
    }
}
