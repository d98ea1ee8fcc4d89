// The cut of one participant's cover, and of all.
ghost use Rattle.std.specs.Prelude.{◌≡◌, ℕ, ◌+◌, ◌*◌, ◌≤◌, ◌<◌, length};
ghost use Rattle.std.proofs.lemmas.List.Edits.{sets};
ghost use Rattle.report.specs.ReportLayout.{report_length, reports_bytes};
ghost use Rattle.rules.specs.Book.{cover_of};
ghost use Rattle.rules.specs.Cover.{whole, most_total};
ghost use Rattle.rules.specs.Tell.{listed};
ghost use Rattle.rules.specs.Cut.{with_held, with_debit, cut_cover, cut_report, cut_to, cut_reports_to};

use super::told;
use dayfile::roster::Roster;
use orders::tell;
use rules::Cover;
use rules::decision::Told;

// The excess goes to held.
fn with_held(n: u64, c: Cover) -> Cover
    requires { (n ≤ c.available) × (whole c ≤ most_total) }
    ensures { result ≡ with_held n c }
{
    Cover {
        available: c.available - n,
        held: c.held + n,
        ..c
    }
}

// The gap becomes open debit.
fn with_debit(n: u64, c: Cover) -> Cover
    ensures { result ≡ with_debit n c }
{
    Cover { debit: n, ..c }
}

pub fn cut_cover(opening: Option<u64>, c: Cover) -> Cover
    requires { whole c ≤ most_total }
    ensures { result ≡ cut_cover opening c }
{
    let Some(k) = opening else {
        return c;
    };
    if k < c.available {
        with_held(c.available - k, c)
    } else if c.available < k {
        with_debit(k - c.available, c)
    } else {
        c
    }
}

// At most one report.
pub fn cut_told(p: usize, opening: Option<u64>, c: Cover) -> Told
    requires { p < 256 }
    ensures { listed result ≡ cut_report p opening c }
{
    let Some(k) = opening else {
        return Told::Nobody;
    };
    if k < c.available {
        Told::One(tell::tell_cut(p, 11, c.available - k))
    } else if c.available < k {
        Told::One(tell::tell_cut(p, 10, k - c.available))
    } else {
        Told::Nobody
    }
}

pub fn cut_covers(roster: Roster, covers: [Cover; 32]) -> [Cover; 32]
    requires { (roster.size ≤ 32) × ((p : ℕ) → p < roster.size → whole (cover_of covers p) ≤ most_total) }
    ensures { result ≡ cut_to roster covers roster.size }
{
    let mut after = covers;
    for p in 0..roster.size {
        let participant = roster.participants[p];
        after[p] = cut_cover(participant.opening, covers[p]);
    }
    after
}

// The answer is how many reports there are then. Each participant gets at most one.
pub fn put_cut(buffer: &mut [u8], n: usize, roster: Roster, covers: [Cover; 32]) -> usize
    requires { (roster.size ≤ 32) × (report_length * n + report_length * roster.size ≤ length buffer.old) }
    ensures { (buffer.new
        ≡ sets buffer.old (report_length * n) (reports_bytes (cut_reports_to roster covers roster.size)))
        × (result ≡ n + length (cut_reports_to roster covers roster.size)) }
{
    let mut m = n;
    for p in 0..roster.size {
        let participant = roster.participants[p];
        m = told::put_told(buffer, m, cut_told(p, participant.opening, covers[p]));
    }
    m
}
