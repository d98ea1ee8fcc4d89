// Reports: of an order, and of a cut.
ghost use Rattle.std.specs.Prelude.{◌≡◌, ◌<◌};
ghost use Rattle.rules.specs.Tell.{tell_order, tell_cut};

use report::Report;
use rules::Order;

// To whom, code, about order number i.
pub fn tell_order(to: usize, code: u8, i: usize, o: Order) -> Report
    requires { (to < 256) × (i < 65536) }
    ensures { result ≡ tell_order to code i o }
{
    Report {
        to: to as u8,
        code,
        order: i as u16,
        amount: o.amount,
    }
}

pub fn tell_cut(to: usize, code: u8, amount: u64) -> Report
    requires { to < 256 }
    ensures { result ≡ tell_cut to code amount }
{
    Report {
        to: to as u8,
        code,
        order: 65535,
        amount,
    }
}
