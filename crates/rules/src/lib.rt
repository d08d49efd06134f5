// The answers of the store, and the numbers that document 01 gives them. The definitions that every promise cites are
// in specs/: the lent bytes and their views, sound tables, the steps, the calls.
#![tactic(auto)]

ghost use Rattle.std.specs.Prelude.{◌≡◌};
ghost use Rattle.rules.specs.Answers.{code_of, reply_of};

// What format is given, L apart: page size, pages, frames, and the sizes of the online table and the log in records.
#[derive(Clone, Copy, Debug, PartialEq, Eq)]
pub struct Params {
    pub size: u64,
    pub pages: u64,
    pub frames: u64,
    pub online: u64,
    pub log: u64,
}

// The seven lent areas, to be read.
#[derive(Clone, Copy, Debug)]
pub struct Areas<'a> {
    pub fixed: &'a [u8],
    pub marks: &'a [u8],
    pub log: &'a [u8],
    pub stored: &'a [u8],
    pub tables: &'a [u8],
    pub online: &'a [u8],
    pub pool: &'a [u8],
}

// The first bad argument, in the order in which they are judged.
#[derive(Clone, Copy, Debug, PartialEq, Eq)]
pub enum Bad {
    Page,
    Number,
    Length,
    Place,
    Value,
    Kind,
    Parameter,
    Lent,
}

// Why a call is refused, in the order of 01's table.
#[derive(Clone, Copy, Debug, PartialEq, Eq)]
pub enum Refusal {
    NotSound,
    Argument(Bad),
    ShortBuffer,
    NotLive,
    Live,
    Held,
    OnlineFull,
    LogFull,
    NumbersEnd,
    NoFrame,
}

// What judging a call says: it may go on, or why it is refused.
pub type Verdict = Result<(), Refusal>;

// Page reads, page writes and log writes of a call.
#[derive(Clone, Copy, Debug, PartialEq, Eq)]
pub struct Counts {
    pub reads: u32,
    pub writes: u32,
    pub logs: u32,
}

#[derive(Clone, Copy, Debug, PartialEq, Eq)]
pub enum Answer {
    Done(Counts),
    NotDue,
    Refused(Refusal),
}

// An answer as C has it.
#[repr(C)]
#[derive(Clone, Copy, Debug, PartialEq, Eq)]
pub struct Reply {
    pub code: u32,
    pub note: u32,
    pub reads: u32,
    pub writes: u32,
    pub logs: u32,
}

impl Refusal {
    // 01's number of it.
    pub fn number(self) -> u8
        ensures { result ≡ code_of self }
    {
        match self {
            Refusal::NotSound => 1,
            Refusal::Argument(_) => 2,
            Refusal::ShortBuffer => 3,
            Refusal::NotLive => 4,
            Refusal::Live => 5,
            Refusal::Held => 6,
            Refusal::OnlineFull => 7,
            Refusal::LogFull => 8,
            Refusal::NumbersEnd => 9,
            Refusal::NoFrame => 10,
        }
    }
}

// The refusal's number, or 0 with the counts; 1 as the note where compact was not due.
impl From<Answer> for Reply {
    ghost from_gives = { λ a r. r ≡ reply_of a };

    fn from(a: Answer) -> Reply {
        match a {
            Answer::Done(c) => Reply {
                code: 0,
                note: 0,
                reads: c.reads,
                writes: c.writes,
                logs: c.logs,
            },
            Answer::NotDue => Reply {
                code: 0,
                note: 1,
                reads: 0,
                writes: 0,
                logs: 0,
            },
            Answer::Refused(r) => Reply {
                code: u32::from(r.number()),
                note: 0,
                reads: 0,
                writes: 0,
                logs: 0,
            },
        }
    }
}
