// Reading a day file: refusals 1 to 5 in the paper's order, or the roster and where the tickets lie. Any bytes of any length may be
// handed in.
#![tactic(auto)]

mod roster;

ghost use Rattle.std.specs.Prelude.{◌≡◌, length, IfOk};
ghost use Rattle.dayfile.specs.DayFile.{day_file};
ghost use Rattle.dayfile.specs.Roster.{RowsWithin};
ghost use Rattle.dayfile.specs.Guarantee.{RosterNumbers};
ghost use Rattle.dayread.specs.Outcome.{file_of};

use dayfile::DayFile;
use dayfile::check::{Enrolled, Placed, Ranged, Routed};
use dayfile::header::Header;

// The header that the checks leave, or the refusal.
#[tactic(auto, unfolding(dayfile::specs::DayFile::day_file))]
fn checked(f: &[u8]) -> Result<Header, u8>
    ensures { (file_of f.now result ≡ day_file f.now)
        × IfOk result (λ h. RowsWithin h (length f.now)) }
{
    let Some(h) = dayrows::read_header(f) else {
        return Err(1);
    };
    let Ranged::Within = dayrows::check_counts(h) else {
        return Err(2);
    };
    let Placed::Right = dayrows::check_places(h, f.len()) else {
        return Err(3);
    };
    let n = h.counts;
    let at = h.offsets;
    let Enrolled::Right = dayrows::check_participants(at.participants, n.participants, f) else {
        return Err(4);
    };
    let Routed::Right = dayrows::check_routes(n.participants, at.routes, n.routes, f) else {
        return Err(5);
    };
    Ok(h)
}

// A refused file has the roster of a header of nothing, which is the empty one. So one roster is made; to choose between two the machine
// would copy them row by row.
pub fn read_day_file(f: &[u8]) -> DayFile
    ensures { (result ≡ day_file f.now) × RosterNumbers f.now result.roster }
{
    let (refusal, h) = match checked(f) {
        Ok(h) => (0, h),
        Err(refusal) => (refusal, Header::default()),
    };
    DayFile {
        refusal,
        roster: roster::read_roster(h, f),
        tickets: h.counts.tickets,
        first: h.offsets.tickets,
    }
}
