// Answers as C has them.
ghost use Rattle.std.specs.Prelude.{◌≡◌};
ghost use Rattle.rules.specs.Answers.{reply_of};
ghost use Rattle.ventarico.specs.Said.{done_as};

use rules::{Answer, Counts, Refusal, Reply};

pub fn refused(why: Refusal) -> Reply
    ensures { result ≡ reply_of (Answer.Refused why) }
{
    Reply::from(Answer::Refused(why))
}

pub fn done(reads: u32, writes: u32, logs: u32) -> Reply
    ensures { result ≡ done_as reads writes logs }
{
    Reply::from(Answer::Done(Counts {
        reads,
        writes,
        logs,
    }))
}

// Done, and nothing was due.
pub fn not_due() -> Reply
    ensures { result ≡ reply_of Answer.NotDue }
{
    Reply::from(Answer::NotDue)
}
