// The expiry of one order. It takes the clock minus the order's time: a sum of time and 20 could leave 32 bits.
ghost use Rattle.std.specs.Prelude.{◌≡◌, ◌-◌, ◌≤◌, ◌<◌, ltb};
ghost use Rattle.rules.specs.Tick.{time_limit, due};
ghost use Rattle.course.specs.Expiry.{expiry_of};

use super::{status, tell, transfer};
use course::Expiry;
use rules::decision::Told;
use rules::{Order, Status, constants};

// An order that is younger than 20 seconds is not due, and none that came after it is older.
pub fn is_young(clock: u32, time: u32) -> bool
    requires { time ≤ clock }
    ensures { result ≡ ltb (clock - time) time_limit }
{
    clock - time < constants::TIME_LIMIT
}

// Waiting, the payee a bank, clock minus time at least 20.
pub fn due(clock: u32, o: Order, bank: bool) -> bool
    requires { o.time ≤ clock }
    ensures { result ≡ due clock o bank }
{
    let s = o.status;
    status::is_waiting(s) & bank & (constants::TIME_LIMIT <= clock - o.time)
}

pub fn expire(clock: u32, i: usize, o: Order, bank: bool) -> Expiry
    requires { (o.time ≤ clock) × (o.payer < 256) × (o.payee < 256) × (i < 65536) }
    ensures { result ≡ expiry_of clock i o bank }
{
    if due(clock, o, bank) {
        Expiry {
            order: status::with_status(o, Status::Expired),
            freed: transfer::freed(o),
            told: Told::Two(
                tell::tell_order(o.payer, 4, i, o),
                tell::tell_order(o.payee, 4, i, o),
            ),
        }
    } else {
        Expiry {
            order: o,
            freed: transfer::nobody(),
            told: Told::Nobody,
        }
    }
}
