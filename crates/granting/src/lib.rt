// The verdict of each ticket's own step, and of a refused ticket. Each function equals a definition of `verdict`, in OwnStep.antt. Of a
// refused ticket all but the refusal is nothing (`refused-alone`), so it may be carried out or skipped.
#![tactic(auto)]

ghost use Rattle.std.specs.Prelude.{◌≡◌, cond, Some, None};
ghost use Rattle.verdict.specs.OwnStep.{
  mover,
  notice,
  refused_verdict,
  nothing,
  cover_moved,
  opened,
  settled,
  turned_down,
  marked,
  recalled,
  declined,
  returned,
  answer_told,
  answer_also,
  answer_amount,
  answered,
  cut_verdict,
};

use orders::status;
use rules::decision::Move;
use rules::verdict::{About, Does, Mover, Notice, Verdict};
use rules::{Recall, Status};

fn mover(who: usize, how: Move) -> Mover
    ensures { result ≡ mover who how }
{
    Mover { who, how }
}

fn notice(to: usize, code: u8) -> Notice
    ensures { result ≡ notice to code }
{
    Notice { to, code }
}

// All but the refusal is nothing.
pub fn refused(n: u8) -> Verdict
    ensures { result ≡ refused_verdict n }
{
    let nobody = mover(0, Move::Stay);
    Verdict {
        refusal: n,
        does: Does::Nothing,
        number: 0,
        first: nobody,
        second: nobody,
        amount: 0,
        told: None,
        also: None,
    }
}

pub fn nothing() -> Verdict
    ensures { result ≡ nothing }
{
    refused(0)
}

// One participant's cover moves.
pub fn cover_moved(who: usize, how: Move, n: u64) -> Verdict
    ensures { result ≡ cover_moved who how n }
{
    Verdict {
        first: mover(who, how),
        amount: n,
        ..nothing()
    }
}

// Order: available to reserved; new Waiting order; report 1 to payee.
pub fn opened(i: usize, payer: usize, payee: usize, n: u64) -> Verdict
    ensures { result ≡ opened i payer payee n }
{
    Verdict {
        does: Does::Opens,
        number: i,
        first: mover(payer, Move::Reserve),
        amount: n,
        told: Some(notice(payee, 1)),
        ..nothing()
    }
}

// Yes to Waiting: payer's reserved falls, payee's available rises; Settled, mark none; report 2 to payer, then to payee if a bank. The
// clock is the time of its settlement.
pub fn settled(i: usize, a: About, bank: bool, clock: u32) -> Verdict
    ensures { result ≡ settled i a bank clock }
{
    Verdict {
        does: Does::Becomes(Status::Settled(Recall::None, clock)),
        number: i,
        first: mover(a.payer, Move::Spend),
        second: mover(a.payee, Move::Give),
        amount: a.amount,
        told: Some(notice(a.payer, 2)),
        also: bank.then_some(notice(a.payee, 2)),
        ..nothing()
    }
}

// No to Waiting: reserved to available; Refused; report 3 to payer only.
pub fn turned_down(i: usize, a: About) -> Verdict
    ensures { result ≡ turned_down i a }
{
    Verdict {
        does: Does::Becomes(Status::Refused),
        number: i,
        first: mover(a.payer, Move::Release),
        amount: a.amount,
        told: Some(notice(a.payer, 3)),
        ..nothing()
    }
}

// The order's mark changes, and one is told.
// At is the time of its settlement.
fn marked(mark: Recall, at: u32, i: usize, n: u64, told: Notice) -> Verdict
    ensures { result ≡ marked mark at i n told }
{
    Verdict {
        does: Does::Becomes(Status::Settled(mark, at)),
        number: i,
        amount: n,
        told: Some(told),
        ..nothing()
    }
}

// Recall of Settled with mark none: asked; report 5 to payee.
pub fn recalled(i: usize, a: About) -> Verdict
    ensures { result ≡ recalled i a }
{
    let at = status::settled_at(a.status);
    marked(Recall::Asked, at, i, a.amount, notice(a.payee, 5))
}

// Decline of Settled, asked: declined; report 7 to payer.
pub fn declined(i: usize, a: About) -> Verdict
    ensures { result ≡ declined i a }
{
    let at = status::settled_at(a.status);
    marked(Recall::Declined, at, i, a.amount, notice(a.payer, 7))
}

// Return: payee's available falls, payer's rises; Returned; report 6 to payer. All by the ticket's amount, n.
pub fn returned(i: usize, a: About, n: u64) -> Verdict
    ensures { result ≡ returned i a n }
{
    let at = status::settled_at(a.status);
    Verdict {
        does: Does::Becomes(Status::Returned(at, n)),
        number: i,
        first: mover(a.payee, Move::Draw),
        second: mover(a.payer, Move::Give),
        amount: n,
        told: Some(notice(a.payer, 6)),
        ..nothing()
    }
}

// 9 to payer if the payee is a bank, else 8 to payee.
fn waiting_told(a: About, bank: bool) -> Notice
    ensures { result ≡ cond bank (notice a.payer 9) (notice a.payee 8) }
{
    if bank {
        notice(a.payer, 9)
    } else {
        notice(a.payee, 8)
    }
}

fn answer_told(a: About, bank: bool, s: Status) -> Notice
    ensures { result ≡ answer_told a bank s }
{
    match s {
        Status::Waiting => waiting_told(a, bank),
        Status::Refused => notice(a.payer, 3),
        Status::Expired => notice(a.payer, 4),
        Status::Returned(_, _) => notice(a.payer, 6),
        Status::Settled(_, _) => notice(a.payer, 2),
    }
}

// Where it is settled, 8 to payee if asked, or 7 to payer if declined.
fn answer_also(a: About, s: Status) -> Option<Notice>
    ensures { result ≡ answer_also a s }
{
    match s {
        Status::Settled(Recall::Asked, _) => Some(notice(a.payee, 8)),
        Status::Settled(Recall::Declined, _) => Some(notice(a.payer, 7)),
        _ => None,
    }
}

// Report 6 carries the returned amount, the others the order's.
fn answer_amount(a: About, s: Status) -> u64
    ensures { result ≡ answer_amount a s }
{
    match s {
        Status::Returned(_, n) => n,
        _ => a.amount,
    }
}

// Inquiry changes no order.
pub fn answered(i: usize, a: About, bank: bool) -> Verdict
    ensures { result ≡ answered i a bank }
{
    let status = a.status;
    Verdict {
        number: i,
        amount: answer_amount(a, status),
        told: Some(answer_told(a, bank, status)),
        also: answer_also(a, status),
        ..nothing()
    }
}

// Cut: all covers, with their own reports.
pub fn cuts() -> Verdict
    ensures { result ≡ cut_verdict }
{
    Verdict {
        does: Does::Cuts,
        ..nothing()
    }
}
