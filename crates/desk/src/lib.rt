// The desk, which counts the questions that were answered, for each window. A host lends its record as bytes; here it is a struct, which a question is put to.
#![tactic(auto)]

ghost use Rattle.std.specs.Prelude.{[], ◌≡◌, ◌<◌, ◌≤◌, length};
ghost use Rattle.truss.specs.Limits.{desk_length, tally_length, windows};
ghost use Rattle.truss.specs.Call.{next_tally, put_tally, tally_in};
ghost use Rattle.question.specs.Asked.{question_of};
ghost use Rattle.desk.specs.Desk.{AskGives, counted};
ghost use Rattle.desk.specs.DeskBytes.{AskBytesGives, ShortGives, TalliesOf};

use index::answers::Answered;
use limits::refusal::Refusal;
use limits::{DESK_BYTES, MOST_TALLY, TALLY_BYTES, WINDOWS};
use question::answer::{Question, answer_from};
use wire::paste;

// The desk record: for each window, how many of its questions were answered, resting at the greatest number.
#[derive(Clone, Copy)]
struct Desk {
    tallies: [u32; WINDOWS],
}

// One more, or the greatest number, at which a tally rests.
fn next_tally(t: u32) -> u32
    ensures { result ≡ next_tally t }
{
    t.saturating_add(1).min(MOST_TALLY)
}

impl Desk {
    // The desk of a record of bytes.
    fn read(bytes: &[u8]) -> Desk
        requires { desk_length ≤ length bytes.now }
        ensures { TalliesOf bytes.now result.tallies }
    {
        let mut tallies = [0u32; WINDOWS];
        for i in 0..WINDOWS {
            tallies[i] = tally_of(&bytes[i * TALLY_BYTES..]);
        }
        Desk { tallies }
    }

    // One more question of the window that was answered.
    fn count(&mut self, window: u32)
        requires { window < windows }
        ensures { self.new ≡ counted self.old window }
    {
        let i = window as usize;
        self.tallies[i] = next_tally(self.tallies[i]);
    }

    // A question to the desk: one that is answered moves the tally of its window, and a refused one moves none.
    fn ask(
        &mut self,
        index: &[u8],
        named: &[u8],
        out: &mut [u8],
        q: Question,
        window: u32,
    ) -> Result<Answered, Refusal>
        ensures { AskGives self.old index.now (question_of q named.now) out.old window result out.new self.new }
    {
        let answered = answer_from(index, named, out, q, window)?;
        self.count(window);
        Ok(answered)
    }
}

// The tally in the first four bytes of what is lent, high byte first.
fn tally_of(desk: &[u8]) -> u32
    requires { tally_length ≤ length desk.now }
    ensures { result ≡ tally_in desk.now }
{
    u32::from_be_bytes([desk[0], desk[1], desk[2], desk[3]])
}

// The tally of window i, put in its place in a desk record; every other byte stays.
fn put_tally(desk: &mut [u8], i: usize, t: u32)
    requires desk_length_in_bounds { desk_length ≤ length desk.old }
    requires i_lt_windows { i < windows }
    ensures { desk.new ≡ put_tally i t desk.old }
{
    let place = i * TALLY_BYTES;
    paste(&mut desk[place..], &t.to_be_bytes());
}

// A question with a desk record that is too short: 12, if nothing else is met. It is asked with an empty buffer, so that nothing is written.
fn ask_without_desk(
    index: &[u8],
    named: &[u8],
    q: Question,
    window: u32,
) -> Result<Answered, Refusal>
    ensures { ShortGives index.now (question_of q named.now) window result }
{
    answer_from(index, named, &mut [], q, window)?;
    Err(Refusal::NoRoom)
}

// A question from a host that lends the desk record as bytes: four to a tally, in window order, high byte first. Bytes after them stay.
pub fn ask_bytes(
    index: &[u8],
    named: &[u8],
    out: &mut [u8],
    q: Question,
    window: u32,
    desk: &mut [u8],
) -> Result<Answered, Refusal>
    ensures { AskBytesGives index.now (question_of q named.now) out.old window desk.old result out.new desk.new }
{
    if desk.len() < DESK_BYTES {
        return ask_without_desk(index, named, q, window);
    }
    let mut asked = Desk::read(desk);
    let answered = asked.ask(index, named, out, q, window)?;
    let i = window as usize;
    put_tally(desk, i, asked.tallies[i]);
    Ok(answered)
}

// The same for A and B, which name no accounts and write no answer.
pub fn ask_number(
    index: &[u8],
    q: Question,
    window: u32,
    desk: &mut [u8],
) -> Result<Answered, Refusal>
    ensures { AskBytesGives index.now (question_of q []) [] window desk.old result [] desk.new }
{
    ask_bytes(index, &[], &mut [], q, window, desk)
}
