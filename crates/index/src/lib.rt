// The build, a links file into its index; the opening, whether bytes are an index and what is known of it; the reading, an index back into its links file.
#![tactic(auto)]

ghost use Rattle.index.specs.Build.{Replies};

pub mod answers;
pub mod build;
pub mod open;
pub mod read;
mod replies;
mod solve;

// What a call gives back: refusal 0 and a value, and a second number where the answer has two; or a refusal's number and its place as the value. The others are 0.
#[repr(C)]
#[derive(Clone, Copy)]
pub struct Reply {
    pub refusal: u32,
    pub value: u32,
    pub second: u32,
    pub third: u32,
}

// The four numbers of a reply with one.
pub fn answered(refusal: u32, value: u32) -> Reply
    ensures { Replies result refusal value }
{
    Reply {
        refusal: refusal,
        value: value,
        second: 0,
        third: 0,
    }
}
