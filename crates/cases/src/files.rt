// Cases of day files. `way_of` looks at each row, and at no more than 64, for which a roster has room, so it needs no `requires`. What
// has room for a file stays a function of its own for the compiler: put into its caller, it would have other cases clear that room.
ghost use Rattle.std.specs.Prelude.{◌≡◌, position};
ghost use Rattle.fields.specs.Text.{same};
ghost use Rattle.dayfile.specs.DayFile.{day_file};
ghost use Rattle.dayfile.specs.Route.{followed_bic};

use super::{bytes, print, words};
use dayfile::limits;
use dayfile::roster::Route;
use dayfile::route::Way;

fn print_way(rt: &impl Print, way: Option<Way>) {
    match way {
        Some(way) => {
            let _ = print!(rt; " {}/{}", way.participant, way.rows);
        }
        None => print::put(rt, b" -"),
    }
}

#[inline(never)]
fn print_file(rt: &impl Print, groups: &[u8]) {
    let mut room = [0u8; 65536];
    let d = dayread::read_day_file(bytes::put_bytes(groups, &mut room));
    let r = d.roster;
    print::print_number(rt, u64::from(d.refusal));
    print::print_number(rt, r.size as u64);
    print::print_number(rt, r.rows as u64);
    print::print_number(rt, d.tickets as u64);
    print::print_number(rt, d.first as u64);
    for row in 0..r.rows {
        print_way(rt, routes::follow(&r.routes, row))
    }
    print::print_end(rt)
}

pub fn run_file(rt: &impl Print, line: &[u8]) {
    let (name, groups) = words::split_first(line);
    print::print_case(rt, b"file ", name);
    print_file(rt, groups)
}

// The first row with a BIC.
fn row_with(rows: &[Route], bic: &[u8]) -> Option<usize>
    ensures { result ≡ position (λ row. same row.bic bic.now) rows.now }
{
    rows.iter()
        .position(|row| fields::same_bytes(&row.bic, bic))
}

fn way_of(f: &[u8], bic: &[u8]) -> Option<Way>
    ensures { result ≡ followed_bic (day_file f.now).roster bic.now }
{
    let r = dayread::read_day_file(f).roster;
    let rows = limits::MOST_ROUTES.min(r.rows);
    routes::end_of(&r, row_with(&r.routes[..rows], bic))
}

#[inline(never)]
pub fn run_way(rt: &impl Print, line: &[u8]) {
    print::put(rt, b"way  ");
    let Some((name, rest)) = words::split_once(line) else {
        return print::print_unknown(rt, line);
    };
    let (bic, groups) = words::split_first(rest);
    print::put(rt, &line[..name.len() + 1 + bic.len()]);
    let mut room = [0u8; 65536];
    print_way(rt, way_of(bytes::put_bytes(groups, &mut room), bic));
    print::print_end(rt)
}
