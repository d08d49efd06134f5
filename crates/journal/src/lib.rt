// SQLite's rollback journal by its bytes: the header's test, a page's checksum; and what the two
// calls answer. What they mean is in specs/. It knows no store; docs/JOURNAL.md has the layout.
#![tactic(auto)]

pub mod head;
pub mod sum;

ghost use Rattle.std.specs.Prelude.{◌≡◌};
ghost use Rattle.journal.specs.Calls.{code_of, reply_refused, reply_played};

// Why a call is refused.
#[derive(Clone, Copy, Debug, PartialEq, Eq)]
pub enum Refusal {
    ShortTarget,
    EmptyList,
    BadPage,
    BadParameter,
    BadLength,
    BadHeader,
    WrongPage,
}

// Why a record is not restored.
#[derive(Clone, Copy, Debug, PartialEq, Eq)]
pub enum Fault {
    CutShort,
    BadSum,
}

// How many records are restored, and the fault of the next one; none if the header counts no more.
#[derive(Clone, Copy, Debug, PartialEq, Eq)]
pub struct Run {
    pub count: usize,
    pub ended: Option<Fault>,
}

// An answer as C has it.
#[repr(C)]
#[derive(Clone, Copy)]
pub struct Reply {
    pub code: u32,
    pub ended: u32,
    pub records: u32,
}

impl From<Refusal> for u32 {
    ghost from_gives = { λ refusal code. code ≡ code_of refusal };

    fn from(refusal: Refusal) -> u32 {
        match refusal {
            Refusal::ShortTarget => 14,
            Refusal::EmptyList => 15,
            Refusal::BadPage => 20,
            Refusal::BadParameter => 26,
            Refusal::BadLength => 27,
            Refusal::BadHeader => 29,
            Refusal::WrongPage => 30,
        }
    }
}

impl From<Refusal> for Reply {
    ghost from_gives = { λ refusal reply. reply ≡ reply_refused refusal };

    fn from(refusal: Refusal) -> Reply {
        Reply {
            code: u32::from(refusal),
            ended: 0,
            records: 0,
        }
    }
}

impl From<Run> for Reply {
    ghost from_gives = { λ run reply. reply ≡ reply_played run };

    fn from(run: Run) -> Reply {
        let ended = match run.ended {
            None => 0,
            Some(Fault::CutShort) => 1,
            Some(Fault::BadSum) => 2,
        };
        Reply {
            code: 0,
            ended,
            records: (run.count % 4294967296) as u32,
        }
    }
}
