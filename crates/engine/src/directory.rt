// What is searched of a roster and lent to each turn: the BICs of participants and of routes. It doesn't change, so it is made once, and
// what a turn has to know of it is one premise (`Directs`).
ghost use Rattle.std.specs.Prelude.{◌≡◌, []};
ghost use Rattle.dayfile.specs.Guarantee.{Guaranteed};
ghost use Rattle.engine.specs.Directory.{Directs};

use dayfile::roster::Roster;
use index::Index;

#[derive(Drop)]
pub struct Directory {
    pub bics: Index<2, 32>,
    pub routes: Index<2, 64>,
}

// The directory of a roster, in one that has no rows yet.
pub fn put_directory(roster: &Roster, directory: &mut Directory)
    requires roster { Guaranteed roster.now }
    requires senders { directory.old.bics ≡ [] }
    requires payees { directory.old.routes ≡ [] }
    ensures { Directs roster.now directory.new }
{
    index::put_bics(&roster.participants, roster.size, &mut directory.bics);
    index::put_route_bics(&roster.routes, roster.rows, &mut directory.routes);
}
