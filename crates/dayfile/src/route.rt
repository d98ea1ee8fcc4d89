// What a payee BIC leads to.
ghost use Rattle.std.specs.Prelude.{◌≡◌};
ghost use Rattle.dayfile.specs.Route.{reached, rows_followed};

// The participant reached and the number of rows followed. A BIC that leads nowhere has none.
#[derive(Clone, Copy)]
pub struct Way {
    pub participant: usize,
    pub rows: usize,
}

// The participant that was reached, and how many rows were followed; 0 where it leads nowhere.
pub fn reached(way: Option<Way>) -> usize
    ensures { result ≡ reached way }
{
    way.map_or(0, |w| w.participant)
}

pub fn rows_followed(way: Option<Way>) -> usize
    ensures { result ≡ rows_followed way }
{
    way.map_or(0, |w| w.rows)
}
