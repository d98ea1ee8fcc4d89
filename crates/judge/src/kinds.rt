// Each kind's judgement: its checks, a line each, and then its step. A later check is looked at only when all before it pass. A function
// takes only what its kind looks at. Its checks are a chain of `let .. else`, and the refusal in `verdict` is the same chain of
// `first_of`: a request about one kind changes a line of each, and a new refusal is one check and one line. So the checks that six kinds
// begin with stand in each, and not in a function that the six call.
ghost use Rattle.std.specs.Prelude.{◌≤◌, ◌≡◌};
ghost use Rattle.rules.specs.Cover.{most_total};
ghost use Rattle.verdict.specs.Judgement.{
  cover_in_verdict,
  cover_out_verdict,
  order_verdict,
  yes_verdict,
  no_verdict,
  recall_verdict,
  return_verdict,
  decline_verdict,
  inquiry_verdict,
  cuts_verdict,
  confirm_verdict,
};

use dayfile::route::Way;
use rules::checks::{
    Confirming, Cutting, Funds, Held, Key, Limit, Party, Payee, Recalling, Sender, Space, Standing,
    Sum,
};
use rules::decision::Move;
use rules::verdict::{About, Verdict};

// Cover in: available rises.
pub fn cover_in(sender: Option<usize>, total: u64, n: u64) -> Verdict
    requires { total ≤ most_total }
    ensures { result ≡ cover_in_verdict sender total n }
{
    let Sender::Is(p) = checks::sender_check(sender) else {
        return granting::refused(12);
    };
    let Limit::Within = checks::limit_check(Move::Give, total, n) else {
        return granting::refused(22);
    };
    granting::cover_moved(p, Move::Give, n)
}

// Cover out: available falls.
pub fn cover_out(sender: Option<usize>, available: u64, n: u64) -> Verdict
    ensures { result ≡ cover_out_verdict sender available n }
{
    let Sender::Is(p) = checks::sender_check(sender) else {
        return granting::refused(12);
    };
    let Funds::Enough = checks::funds_check(available, n) else {
        return granting::refused(20);
    };
    granting::cover_moved(p, Move::Draw, n)
}

// Order: a new Waiting order.
pub fn order(
    sender: Option<usize>,
    order: Option<usize>,
    route: Option<usize>,
    way: Option<Way>,
    count: usize,
    available: u64,
    n: u64,
) -> Verdict
    ensures { result ≡ order_verdict sender order route way count available n }
{
    let Sender::Is(p) = checks::sender_check(sender) else {
        return granting::refused(12);
    };
    let Key::New = checks::new_check(order) else {
        return granting::refused(13);
    };
    let Payee::Reached(payee) = checks::payee_check(route, way) else {
        return granting::refused(14);
    };
    let Space::Left = checks::space_check(count) else {
        return granting::refused(15);
    };
    let Funds::Enough = checks::funds_check(available, n) else {
        return granting::refused(20);
    };
    granting::opened(count, p, payee, n)
}

// Yes of the payee, to Waiting.
pub fn yes(sender: Option<usize>, order: Option<usize>, a: About, bank: bool, clock: u32) -> Verdict
    ensures { result ≡ yes_verdict sender order a bank clock }
{
    let Sender::Is(p) = checks::sender_check(sender) else {
        return granting::refused(12);
    };
    let Held::Number(i) = checks::held_check(order) else {
        return granting::refused(16);
    };
    let Party::Right = checks::party_check(p, a.payee) else {
        return granting::refused(17);
    };
    let Standing::AsNeeded = checks::waiting_check(a.status) else {
        return granting::refused(18);
    };
    granting::settled(i, a, bank, clock)
}

// No of the payee, to Waiting.
pub fn no(sender: Option<usize>, order: Option<usize>, a: About) -> Verdict
    ensures { result ≡ no_verdict sender order a }
{
    let Sender::Is(p) = checks::sender_check(sender) else {
        return granting::refused(12);
    };
    let Held::Number(i) = checks::held_check(order) else {
        return granting::refused(16);
    };
    let Party::Right = checks::party_check(p, a.payee) else {
        return granting::refused(17);
    };
    let Standing::AsNeeded = checks::waiting_check(a.status) else {
        return granting::refused(18);
    };
    granting::turned_down(i, a)
}

// Recall of the payer, of Settled with mark none, less than 864,000 seconds after the settlement.
pub fn recall(sender: Option<usize>, order: Option<usize>, a: About, clock: u32) -> Verdict
    ensures { result ≡ recall_verdict sender order a clock }
{
    let Sender::Is(p) = checks::sender_check(sender) else {
        return granting::refused(12);
    };
    let Held::Number(i) = checks::held_check(order) else {
        return granting::refused(16);
    };
    let Party::Right = checks::party_check(p, a.payer) else {
        return granting::refused(17);
    };
    let Standing::AsNeeded = checks::unmarked_check(a.status) else {
        return granting::refused(18);
    };
    let Recalling::InTime = checks::recall_check(clock, a.status) else {
        return granting::refused(26);
    };
    granting::recalled(i, a)
}

// Return of the payee, of Settled, asked, by an amount up to the order's.
pub fn return_of(
    sender: Option<usize>,
    order: Option<usize>,
    a: About,
    available: u64,
    n: u64,
) -> Verdict
    ensures { result ≡ return_verdict sender order a available n }
{
    let Sender::Is(p) = checks::sender_check(sender) else {
        return granting::refused(12);
    };
    let Held::Number(i) = checks::held_check(order) else {
        return granting::refused(16);
    };
    let Party::Right = checks::party_check(p, a.payee) else {
        return granting::refused(17);
    };
    let Standing::AsNeeded = checks::asked_check(a.status) else {
        return granting::refused(18);
    };
    let Sum::UpToOrder = checks::sum_check(n, a.amount) else {
        return granting::refused(19);
    };
    let Funds::Enough = checks::funds_check(available, n) else {
        return granting::refused(20);
    };
    granting::returned(i, a, n)
}

// Decline of the payee, of Settled, asked.
pub fn decline(sender: Option<usize>, order: Option<usize>, a: About) -> Verdict
    ensures { result ≡ decline_verdict sender order a }
{
    let Sender::Is(p) = checks::sender_check(sender) else {
        return granting::refused(12);
    };
    let Held::Number(i) = checks::held_check(order) else {
        return granting::refused(16);
    };
    let Party::Right = checks::party_check(p, a.payee) else {
        return granting::refused(17);
    };
    let Standing::AsNeeded = checks::asked_check(a.status) else {
        return granting::refused(18);
    };
    granting::declined(i, a)
}

// Inquiry of the payer.
pub fn inquiry(sender: Option<usize>, order: Option<usize>, a: About, bank: bool) -> Verdict
    ensures { result ≡ inquiry_verdict sender order a bank }
{
    let Sender::Is(p) = checks::sender_check(sender) else {
        return granting::refused(12);
    };
    let Held::Number(i) = checks::held_check(order) else {
        return granting::refused(16);
    };
    let Party::Right = checks::party_check(p, a.payer) else {
        return granting::refused(17);
    };
    granting::answered(i, a, bank)
}

// Cut: all covers.
pub fn cut(unconfirmed: bool) -> Verdict
    ensures { result ≡ cuts_verdict unconfirmed }
{
    let Cutting::AllConfirmed = checks::cut_check(unconfirmed) else {
        return granting::refused(21);
    };
    granting::cuts()
}

// Confirm: as a confirmed credit or debit.
pub fn confirm(sender: Option<usize>, held: u64, debit: u64, total: u64, n: u64) -> Verdict
    requires { total ≤ most_total }
    ensures { result ≡ confirm_verdict sender held debit total n }
{
    let Sender::Is(p) = checks::sender_check(sender) else {
        return granting::refused(12);
    };
    let Confirming::By(how) = checks::confirm_check(held, debit, n) else {
        return granting::refused(21);
    };
    let Limit::Within = checks::limit_check(how, total, n) else {
        return granting::refused(22);
    };
    granting::cover_moved(p, how, n)
}
