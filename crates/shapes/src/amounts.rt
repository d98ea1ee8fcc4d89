// The amounts that each kind takes.
ghost use Rattle.std.specs.Prelude.{◌≡◌};
ghost use Rattle.shapes.specs.Amounts.{amounts_of};

use ticket::kinds::Kind;

// 01: cover tickets and confirms, 10^18; orders and returns, 99,999,999,999
const MOST_COVER: u64 = 1_000_000_000_000_000_000;

const MOST_ORDER: u64 = 99_999_999_999;

// Most is 0 where a kind lists no amount.
#[derive(Clone, Copy)]
pub struct Amounts {
    pub least: u64,
    pub most: u64,
}

// It stays a function of its own for the compiler: so its two words are looked up, where in its callers it would be a jump for each class
// of kinds.
#[inline(never)]
#[tactic(auto, unfolding(crate::specs::Amounts::amounts_of))]
pub fn amounts_of(kind: Kind) -> Amounts
    ensures { result ≡ amounts_of kind }
{
    let (least, most) = match kind {
        Kind::CoverIn | Kind::CoverOut => (1, MOST_COVER),
        Kind::Order | Kind::Return => (1, MOST_ORDER),
        Kind::Confirm => (0, MOST_COVER),
        Kind::Yes
        | Kind::No
        | Kind::Recall
        | Kind::Decline
        | Kind::Inquiry
        | Kind::Cut
        | Kind::Tick => (0, 0),
    };
    Amounts { least, most }
}
