// The judgement of a ticket, check by check: the first refusal from 12 on that applies, or the verdict of its step. Each function equals a
// definition of `verdict`.
#![tactic(auto)]

mod kinds;

ghost use Rattle.std.specs.Prelude.{◌≤◌, ◌≡◌};
ghost use Rattle.rules.specs.Cover.{most_total};
ghost use Rattle.verdict.specs.Judgement.{verdict_of};

use rules::verdict::{Facts, Verdict};
use ticket::kinds::Kind;

pub fn judge(x: Facts) -> Verdict
    requires { x.total ≤ most_total }
    ensures { result ≡ verdict_of x }
{
    match x.kind {
        Kind::CoverIn => kinds::cover_in(x.sender, x.total, x.amount),
        Kind::CoverOut => kinds::cover_out(x.sender, x.cover.available, x.amount),
        Kind::Order => kinds::order(
            x.sender,
            x.order,
            x.route,
            x.way,
            x.count,
            x.cover.available,
            x.amount,
        ),
        Kind::Yes => kinds::yes(x.sender, x.order, x.about, x.bank, x.clock),
        Kind::No => kinds::no(x.sender, x.order, x.about),
        Kind::Recall => kinds::recall(x.sender, x.order, x.about, x.clock),
        Kind::Return => kinds::return_of(x.sender, x.order, x.about, x.cover.available, x.amount),
        Kind::Decline => kinds::decline(x.sender, x.order, x.about),
        Kind::Inquiry => kinds::inquiry(x.sender, x.order, x.about, x.bank),
        Kind::Cut => kinds::cut(x.unconfirmed),
        Kind::Confirm => kinds::confirm(x.sender, x.cover.held, x.cover.debit, x.total, x.amount),
        Kind::Tick => granting::nothing(),
    }
}
