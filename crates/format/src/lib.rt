// A fresh store: every table written whole. Stored pages and frames stay as they are.
#![tactic(auto)]

ghost use Rattle.std.specs.Prelude.{◌≡◌, ◌+◌, ◌*◌, ◌≤◌, length, replicate};
ghost use Rattle.word.specs.Word.{put};
ghost use Rattle.rules.specs.Lent.{last_at, closed_at, fixed_length, marks_length, fixed_of};
ghost use Rattle.rules.specs.Areas.{areas};
ghost use Rattle.rules.specs.Steps.{stamped, formatted};

use rules::Params;

// The parameters: they fill it.
fn write_fixed(fixed: &mut [u8], g: Params)
    requires { length fixed.old ≡ fixed_length }
    ensures { fixed.new ≡ fixed_of g }
{
    word::store(fixed, layout::SIZE_AT, 4, g.size);
    word::store(fixed, layout::PAGES_AT, 4, g.pages);
    word::store(fixed, layout::FRAMES_AT, 4, g.frames);
    word::store(fixed, layout::ONLINE_SIZE_AT, 4, g.online);
    word::store(fixed, layout::LOG_SIZE_AT, 4, g.log);
}

// The stamps of all pages.
fn stamp_all(marks: &mut [u8], pages: usize, last: u64)
    requires { (length marks.old ≡ marks_length pages) × (pages ≤ 1024) }
    ensures { marks.new ≡ stamped pages 0 last marks.old }
{
    for p in 0..pages {
        word::store(marks, layout::STAMPS_AT + 4 * p, 4, last);
    }
}

// L, K and the stamps: the given last number. No log record, no dirty number.
fn write_marks(marks: &mut [u8], pages: u64, last: u64)
    requires { (length marks.old ≡ marks_length pages) × (pages ≤ 1024) }
    ensures { marks.new ≡ stamped pages 0 last (put 4 (put 4 (replicate (length marks.old) 0) last_at last) closed_at last) }
{
    fill::wipe(marks);
    word::store(marks, layout::LAST_AT, 4, last);
    word::store(marks, layout::CLOSED_AT, 4, last);
    stamp_all(marks, pages as usize, last);
}

// All of it: stored pages and the pool are only named.
pub fn format(
    fixed: &mut [u8],
    marks: &mut [u8],
    log: &mut [u8],
    stored: &[u8],
    tables: &mut [u8],
    online: &mut [u8],
    pool: &[u8],
    g: Params,
    last: u64,
)
    requires { (length fixed.old ≡ fixed_length) × (length marks.old ≡ marks_length g.pages) × (g.pages ≤ 1024) }
    ensures { areas fixed.new marks.new log.new stored.now tables.new online.new pool.now ≡ (formatted (areas fixed.old marks.old log.old stored.now tables.old online.old pool.now) g last).lent }
{
    write_fixed(fixed, g);
    write_marks(marks, g.pages, last);
    fill::wipe(log);
    fill::wipe(tables);
    fill::wipe(online);
}
