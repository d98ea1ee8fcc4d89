// Whether a participant row and a route row are right by themselves.
ghost use Rattle.std.specs.Prelude.{◌≡◌, ◌+◌, ◌≤◌, length};
ghost use Rattle.dayfile.specs.FileLimits.{participant_length, route_length};
ghost use Rattle.dayfile.specs.FileRows.{participant_ok, bound_of, route_ok};

use dayfile::limits;

pub fn participant_ok(f: &[u8], at: usize) -> bool
    requires { at + participant_length ≤ length f.now }
    ensures { result ≡ participant_ok at f.now }
{
    let bic = codes::zolfigar_bic_ok(&f[at..at + 11]) == 1;
    let kind = f[at + 11];
    let opening = fields::u64_at(f, at + 12);
    let wish = f[at + 20];
    let spare = fields::blank(&f[at + 21..at + 24]);
    bic & (kind <= 1)
        & (wish <= 1)
        & (opening <= limits::MOST_OPENING)
        & ((wish == 1) | (opening == 0))
        & spare
}

// What a route row's k has to be below: the participant count, or its own row number.
fn bound_of(kind: u8, size: usize, own: usize) -> usize
    ensures { result ≡ bound_of kind size own }
{
    if kind == 1 { own } else { size }
}

pub fn route_ok(f: &[u8], at: usize, size: usize, own: usize) -> bool
    requires { at + route_length ≤ length f.now }
    ensures { result ≡ route_ok size own at f.now }
{
    let bic = codes::zolfigar_bic_ok(&f[at..at + 11]) == 1;
    let kind = f[at + 11];
    let k = fields::u16_at(f, at + 12) as usize;
    let bound = bound_of(kind, size, own);
    let spare = fields::blank(&f[at + 14..at + 16]);
    bic & (kind <= 1) & (k < bound) & spare
}
