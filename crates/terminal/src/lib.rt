// The calls for the terminal's C host: numbers and byte slices in, four numbers out. A slice is a pointer and then a length. include/footballelm.h has them.
#![tactic(auto)]

ghost use Rattle.std.specs.Prelude.{[]};
ghost use Rattle.truss.specs.Change.{put_in, withdraw};
ghost use Rattle.truss.specs.Question.{ask_all, ask_chain, ask_groups_at, ask_joined, ask_links, ask_strength, ask_strongest};
ghost use Rattle.index.specs.Build.{BuildReplies};
ghost use Rattle.index.specs.Read.{ReadReplies};
ghost use Rattle.desk.specs.DeskBytes.{AskBytesReplies};
ghost use Rattle.changes.specs.Calls.{ChangeReplies};
ghost use Rattle.trial.specs.Trial.{BytesReplies};

use desk::{ask_bytes, ask_number};
use index::Reply;
use question::answer::Question;

// A links file into its index.
#[unsafe(no_mangle)]
pub extern "C" fn fe_build(links: &[u8], index: &mut [u8]) -> Reply
    ensures { BuildReplies links.now index.old result index.new }
{
    Reply::from(index::build::build(links, index))
}

// An index back into its links file.
#[unsafe(no_mangle)]
pub extern "C" fn fe_read(index: &[u8], links: &mut [u8]) -> Reply
    ensures { ReadReplies index.now links.old result links.new }
{
    Reply::from(index::read::read(index, links))
}

// Link a-b put in: the index of the altered links.
#[unsafe(no_mangle)]
pub extern "C" fn fe_put_in(index: &[u8], a: u32, b: u32, out: &mut [u8]) -> Reply
    ensures { ChangeReplies (put_in a b) index.now out.old result out.new }
{
    Reply::from(changes::put_in(index, out, a as usize, b as usize))
}

// Link a-b withdrawn: the index of the altered links.
#[unsafe(no_mangle)]
pub extern "C" fn fe_withdraw(index: &[u8], a: u32, b: u32, out: &mut [u8]) -> Reply
    ensures { ChangeReplies (withdraw a b) index.now out.old result out.new }
{
    Reply::from(changes::withdraw(index, out, a as usize, b as usize))
}

// A stake limit tried at level k on a day's records: a byte for each record, and the closing margin of each group at k.
#[unsafe(no_mangle)]
pub extern "C" fn fe_try_limit(
    index: &[u8],
    records: &[u8],
    k: u32,
    limit: u32,
    taken: &mut [u8],
    margins: &mut [u8],
) -> Reply
    ensures { BytesReplies index.now records.now k limit taken.old margins.old result taken.new margins.new }
{
    Reply::from(bets::bytes::try_bytes(index, records, k, limit, taken, margins))
}

// A. The strength of link a-b, and how many triangles of at least that weight hold it.
#[unsafe(no_mangle)]
pub extern "C" fn fe_strength(index: &[u8], a: u32, b: u32, window: u32, desk: &mut [u8]) -> Reply
    ensures { AskBytesReplies index.now (ask_strength a b) [] window desk.old result [] desk.new }
{
    Reply::from(ask_number(index, Question::Strength { a, b }, window, desk))
}

// B. The largest k at which links a-b and c-d are joined, 0 if none.
#[unsafe(no_mangle)]
pub extern "C" fn fe_joined(
    index: &[u8],
    a: u32,
    b: u32,
    c: u32,
    d: u32,
    window: u32,
    desk: &mut [u8],
) -> Reply
    ensures { AskBytesReplies index.now (ask_joined a b c d) [] window desk.old result [] desk.new }
{
    Reply::from(ask_number(index, Question::Joined { a, b, c, d }, window, desk))
}

// C. The groups at k that hold all named accounts.
#[unsafe(no_mangle)]
pub extern "C" fn fe_groups_at(
    index: &[u8],
    accounts: &[u8],
    k: u32,
    answer: &mut [u8],
    window: u32,
    desk: &mut [u8],
) -> Reply
    ensures { AskBytesReplies index.now (ask_groups_at k accounts.now) answer.old window desk.old result answer.new desk.new }
{
    Reply::from(ask_bytes(
        index,
        accounts,
        answer,
        Question::GroupsAt { k },
        window,
        desk,
    ))
}

// D. Of the stored groups that hold all of them, those whose strength is greatest.
#[unsafe(no_mangle)]
pub extern "C" fn fe_strongest_groups(
    index: &[u8],
    accounts: &[u8],
    answer: &mut [u8],
    window: u32,
    desk: &mut [u8],
) -> Reply
    ensures { AskBytesReplies index.now (ask_strongest accounts.now) answer.old window desk.old result answer.new desk.new }
{
    Reply::from(ask_bytes(
        index,
        accounts,
        answer,
        Question::StrongestGroups,
        window,
        desk,
    ))
}

// E. All stored groups that hold all of them.
#[unsafe(no_mangle)]
pub extern "C" fn fe_all_groups(
    index: &[u8],
    accounts: &[u8],
    answer: &mut [u8],
    window: u32,
    desk: &mut [u8],
) -> Reply
    ensures { AskBytesReplies index.now (ask_all accounts.now) answer.old window desk.old result answer.new desk.new }
{
    Reply::from(ask_bytes(index, accounts, answer, Question::AllGroups, window, desk))
}

// F. The links of the group at k with link a-b; none if its strength is below k.
#[unsafe(no_mangle)]
pub extern "C" fn fe_group_links(
    index: &[u8],
    a: u32,
    b: u32,
    k: u32,
    answer: &mut [u8],
    window: u32,
    desk: &mut [u8],
) -> Reply
    ensures { AskBytesReplies index.now (ask_links k a b) answer.old window desk.old result answer.new desk.new }
{
    Reply::from(ask_bytes(
        index,
        &[],
        answer,
        Question::GroupLinks { a, b, k },
        window,
        desk,
    ))
}

// G. The shortest chain of triangles of weight at least k from link a-b to link c-d; none if there is no chain.
#[unsafe(no_mangle)]
pub extern "C" fn fe_chain(
    index: &[u8],
    a: u32,
    b: u32,
    c: u32,
    d: u32,
    k: u32,
    answer: &mut [u8],
    window: u32,
    desk: &mut [u8],
) -> Reply
    ensures { AskBytesReplies index.now (ask_chain k a b c d) answer.old window desk.old result answer.new desk.new }
{
    Reply::from(ask_bytes(
        index,
        &[],
        answer,
        Question::Chain { a, b, c, d, k },
        window,
        desk,
    ))
}
