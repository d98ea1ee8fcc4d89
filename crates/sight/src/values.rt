// Refusals 9 to 11: amount and time, the same for every kind. `valued` is called at one place, behind all classes, so that the compiler
// takes it in: as a call from each class it would be handed what was found through memory. A tick's and a cut's amount was blank at 7, so
// there only 11 can refuse.
ghost use Rattle.std.specs.Prelude.{◌≡◌, length};
ghost use Rattle.ticket.specs.TicketLayout.{ticket_length};
ghost use Rattle.rules.specs.Refusal.{timing_of};
ghost use Rattle.sight.specs.Value.{stated_by, limit_by, value_sight};

use super::Seen;
use super::subjects::Parties;
use rules::refusal::Timing;
use shapes::amounts;
use shapes::amounts::Amounts;
use ticket::amounts::Limit;
use ticket::kinds::Kind;
use ticket::layout;

// 9. Amount zero.
fn stated(amounts: Amounts, t: &[u8]) -> Option<u64>
    requires { length t.now ≡ ticket_length }
    ensures { result ≡ stated_by amounts t.now }
{
    let n = fields::u64_at(t, layout::AMOUNT);
    if n < amounts.least { None } else { Some(n) }
}

// 10. Amount above its kind's limit.
fn limit(amounts: Amounts, n: u64) -> Limit
    ensures { result ≡ limit_by amounts n }
{
    if amounts.most < n {
        Limit::Above
    } else {
        Limit::Within
    }
}

// 11. Time before the clock.
fn timing(clock: u32, time: u32) -> Timing
    ensures { result ≡ timing_of clock time }
{
    if time < clock {
        Timing::Early
    } else {
        Timing::InTime
    }
}

// What is seen of a ticket that 7 and 8 do not refuse.
pub fn valued(clock: u32, t: &[u8], kind: Kind, parties: Parties) -> Result<Seen, u8>
    requires { length t.now ≡ ticket_length }
    ensures { result ≡ value_sight clock t.now kind parties }
{
    let amounts = amounts::amounts_of(kind);
    let Some(amount) = stated(amounts, t) else {
        return Err(9);
    };
    let Limit::Within = limit(amounts, amount) else {
        return Err(10);
    };
    let time = fields::u32_at(t, layout::TIME);
    let Timing::InTime = timing(clock, time) else {
        return Err(11);
    };
    let Parties {
        sender,
        order,
        route,
    } = parties;
    Ok(Seen {
        kind,
        time,
        amount,
        sender,
        order,
        route,
    })
}
