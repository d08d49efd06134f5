// The check that every call but format and restart makes first: are the lent tables sound?
// It reads everything and asks nothing of its caller.
#![tactic(auto)]

ghost use Rattle.std.specs.Prelude.{◌≡◌, true, ◌&&◌, ◌+◌, ◌*◌, ◌≤◌, ◌<◌, length, drop};
ghost use Rattle.pagetable.specs.Test.{tables_test};
ghost use Rattle.onlinecheck.specs.Online.{online_test};
ghost use Rattle.rules.specs.Areas.{areas_of};
ghost use Rattle.rules.specs.Sound.{sound_durable, sound_lost, sound};
ghost use Rattle.record.specs.Record.{online_width, log_width};
ghost use Rattle.record.specs.Rows.{rows};
ghost use Rattle.rules.specs.Lent.{order_at, marks_length, count_in, last_in, logged_in};

use layout::read;
use record::row;
use rules::{Areas, Params};

// The lost part, by the parameters that the durable part gave.
#[tactic(auto, using(pagetable::proofs::Laws::count_within, record::proofs::Rows::length_rows, durable::proofs::Laws::rest_lent))]
fn lost_at(marks: &[u8], log: &[u8], tables: &[u8], online: &[u8], g: Params) -> bool
    requires { (g.size ≤ 4096) × (g.pages ≤ 1024) × (g.frames ≤ 64) × (g.online ≤ 512) × (g.log ≤ 2048) × (length marks.now ≡ marks_length g.pages) × (length log.now ≡ log_width * g.log) × (length tables.now ≡ order_at + g.frames + g.pages) × (length online.now ≡ online_width * g.online) × (logged_in marks.now ≤ g.log) × (logged_in marks.now ≤ last_in marks.now) × (8 ≤ g.size) }
    ensures { result ≡ (tables_test tables.now g.pages g.frames g.online && online_test (rows online_width (count_in tables.now) online.now 0) (drop (count_in tables.now * online_width) online.now) (rows log_width (logged_in marks.now) log.now 0) marks.now tables.now g.size g.pages g.frames (last_in marks.now)) }
{
    let pages = g.pages as usize;
    let frames = g.frames as usize;
    if !pagetable::sound_tables(tables, pages, frames, g.online as usize) {
        return false;
    }
    let m = read::count_of(tables);
    let n = read::logged_of(marks);
    let last = read::last_of(marks);
    let end = m * record::ONLINE_WIDTH;
    onlinecheck::sound_online(
        row::first_rows(online, m),
        &online[end..],
        row::first_rows(log, n),
        marks,
        tables,
        g.size as usize,
        pages,
        frames,
        last.0,
    )
}

fn sound_lost(lent: &Areas<'_>) -> bool
    requires { sound_durable (areas_of lent.now) ≡ true }
    ensures { result ≡ sound_lost (areas_of lent.now) }
{
    lost_at(
        lent.marks,
        lent.log,
        lent.tables,
        lent.online,
        layout::params_of(lent.fixed),
    )
}

#[tactic(auto, unfolding(rules::specs::Sound::sound))]
pub fn is_sound(lent: &Areas<'_>) -> bool
    ensures { result ≡ sound (areas_of lent.now) }
{
    if !durable::sound_durable(lent) {
        return false;
    }
    sound_lost(lent)
}
