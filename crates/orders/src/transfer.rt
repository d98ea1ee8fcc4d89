// Who moves, how, by how much.
ghost use Rattle.std.specs.Prelude.{◌≡◌};
ghost use Rattle.rules.specs.Tick.{freed};
ghost use Rattle.rules.specs.Decision.{by, nobody};

use rules::Order;
use rules::decision::{Move, Transfer};

pub fn by(who: usize, how: Move, amount: u64) -> Transfer
    ensures { result ≡ by who how amount }
{
    Transfer { who, how, amount }
}

pub fn nobody() -> Transfer
    ensures { result ≡ nobody }
{
    by(0, Move::Stay, 0)
}

// The order's amount goes from its payer's reserved to available.
pub fn freed(o: Order) -> Transfer
    ensures { result ≡ freed o }
{
    by(o.payer, Move::Release, o.amount)
}
