// The header of 12 bytes, and refusal 1.
ghost use Rattle.std.specs.Prelude.{◌≡◌};
ghost use Rattle.dayfile.specs.Header.{headed};

use dayfile::header::{Header, Sections};
use dayfile::limits;

pub fn read_header(f: &[u8]) -> Option<Header>
    ensures { result ≡ headed f.now }
{
    if f.len() < limits::HEADER_LENGTH {
        return None;
    }
    let counts = Sections {
        participants: fields::u16_at(f, 0) as usize,
        routes: fields::u16_at(f, 2) as usize,
        tickets: fields::u16_at(f, 4) as usize,
    };
    let offsets = Sections {
        participants: fields::u16_at(f, 6) as usize,
        routes: fields::u16_at(f, 8) as usize,
        tickets: fields::u16_at(f, 10) as usize,
    };
    Some(Header { counts, offsets })
}
