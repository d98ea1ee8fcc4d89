// Checks from 12 on, a function each. Each equals a definition of `rules`, in Checks.antt. Refusal 22 takes the difference between 10^18
// and all cover, not the sum with the amount, which could leave 64 bits; in a sound book all cover is at most 10^18.
#![tactic(auto)]

ghost use Rattle.std.specs.Prelude.{◌≤◌, ◌-◌, ◌≡◌};
ghost use Rattle.rules.specs.Cover.{most_total};
ghost use Rattle.rules.specs.Checks.{
  sender_check,
  new_check,
  payee_check,
  space_check,
  held_check,
  party_check,
  standing,
  waiting_check,
  unmarked_check,
  asked_check,
  recall_check,
  sum_check,
  funds_check,
  cut_check,
  confirm_check,
  brings,
  limit_check,
};

use dayfile::route::Way;
use orders::status;
use rules::Status;
use rules::checks::{
    Confirming, Cutting, Funds, Held, Key, Limit, Party, Payee, Recalling, Sender, Space, Standing,
    Sum,
};
use rules::decision::Move;

const MOST_ORDERS: usize = 256;

const RECALL_LIMIT: u32 = 864_000;

const MOST_TOTAL: u64 = 1_000_000_000_000_000_000;

// 12. Sender no participant.
pub fn sender_check(sender: Option<usize>) -> Sender
    ensures { result ≡ sender_check sender }
{
    match sender {
        Some(p) => Sender::Is(p),
        None => Sender::NoParticipant,
    }
}

// 13. Order: payer and TxId already held.
pub fn new_check(order: Option<usize>) -> Key
    ensures { result ≡ new_check order }
{
    match order {
        Some(_) => Key::AlreadyHeld,
        None => Key::New,
    }
}

// 14. Order: no route row with the payee BIC.
pub fn payee_check(route: Option<usize>, way: Option<Way>) -> Payee
    ensures { result ≡ payee_check route way }
{
    match route {
        Some(_) => Payee::Reached(dayfile::reached(way)),
        None => Payee::NoRoute,
    }
}

// 15. Order: 256 held.
pub fn space_check(count: usize) -> Space
    ensures { result ≡ space_check count }
{
    let full = MOST_ORDERS <= count;
    if full { Space::Full } else { Space::Left }
}

// 16. Kinds 4 to 8: payer and TxId not held.
pub fn held_check(order: Option<usize>) -> Held
    ensures { result ≡ held_check order }
{
    match order {
        Some(i) => Held::Number(i),
        None => Held::NotHeld,
    }
}

// 17. Kinds 4 to 8: sender is the wrong party.
pub fn party_check(sender: usize, answers: usize) -> Party
    ensures { result ≡ party_check sender answers }
{
    let right = sender == answers;
    if right { Party::Right } else { Party::Wrong }
}

fn standing(met: bool) -> Standing
    ensures { result ≡ standing met }
{
    if met {
        Standing::AsNeeded
    } else {
        Standing::NotAsNeeded
    }
}

// 18. Kinds 4 to 7: status or mark not as the step needs. Yes and no to Waiting.
pub fn waiting_check(s: Status) -> Standing
    ensures { result ≡ waiting_check s }
{
    standing(status::is_waiting(s))
}

// 18. Recall of Settled with mark none.
pub fn unmarked_check(s: Status) -> Standing
    ensures { result ≡ unmarked_check s }
{
    standing(status::is_unmarked(s))
}

// 18. Return and decline of Settled, asked.
pub fn asked_check(s: Status) -> Standing
    ensures { result ≡ asked_check s }
{
    standing(status::is_asked(s))
}

// 26. Recall: 864,000 seconds or more after the settlement.
pub fn recall_check(clock: u32, s: Status) -> Recalling
    ensures { result ≡ recall_check clock s }
{
    let late = RECALL_LIMIT <= clock.saturating_sub(status::settled_at(s));
    if late {
        Recalling::TooLate
    } else {
        Recalling::InTime
    }
}

// 19. Return: amount above the order's.
pub fn sum_check(n: u64, amount: u64) -> Sum
    ensures { result ≡ sum_check n amount }
{
    let above = amount < n;
    if above {
        Sum::AboveOrder
    } else {
        Sum::UpToOrder
    }
}

// 20. Kinds 2, 3, 6: available of payer or drawer (for 6 the payee) below the amount.
pub fn funds_check(available: u64, n: u64) -> Funds
    ensures { result ≡ funds_check available n }
{
    let short = available < n;
    if short {
        Funds::TooLittle
    } else {
        Funds::Enough
    }
}

// 21. Cut with held or open debit anywhere.
pub fn cut_check(unconfirmed: bool) -> Cutting
    ensures { result ≡ cut_check unconfirmed }
{
    if unconfirmed {
        Cutting::Unconfirmed
    } else {
        Cutting::AllConfirmed
    }
}

// 21. Confirm with neither, or an amount its rule excludes.
pub fn confirm_check(held: u64, debit: u64, n: u64) -> Confirming
    ensures { result ≡ confirm_check held debit n }
{
    let nothing_held = held == 0;
    let within_debit = (debit != 0) & (n <= debit);
    let all_held = n == held;
    if nothing_held {
        if within_debit {
            Confirming::By(Move::Debit)
        } else {
            Confirming::Excluded
        }
    } else if all_held {
        Confirming::By(Move::Credit)
    } else {
        Confirming::Excluded
    }
}

fn brings(how: Move) -> bool
    ensures { result ≡ brings how }
{
    matches!(how, Move::Give | Move::Debit)
}

// 22. Cover in or confirmed debit taking available + reserved + held of all above 10^18.
pub fn limit_check(how: Move, total: u64, n: u64) -> Limit
    requires { total ≤ most_total }
    ensures { result ≡ limit_check how total n }
{
    let above = brings(how) & (MOST_TOTAL - total < n);
    if above { Limit::Above } else { Limit::Within }
}
