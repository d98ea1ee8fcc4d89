// The reports of an expiry, of a cut and of a verdict, written behind n reports. Each answer is how many reports there are then. So those
// of expiries, the ticket's own and a cut's follow each other in one buffer.
ghost use Rattle.std.specs.Prelude.{◌≡◌, ◌+◌, ◌*◌, ◌≤◌, ◌<◌, length};
ghost use Rattle.std.proofs.lemmas.List.Edits.{sets};
ghost use Rattle.report.specs.ReportLayout.{report_length, reports_bytes};
ghost use Rattle.rules.specs.Tell.{listed};
ghost use Rattle.verdict.specs.Meaning.{report_by, notices_told, ToldBelow};

use report::Report;
use rules::decision::Told;
use rules::verdict::Notice;

pub fn put_told(buffer: &mut [u8], n: usize, told: Told) -> usize
    requires { report_length * n + report_length * length (listed told) ≤ length buffer.old }
    ensures { (buffer.new ≡ sets buffer.old (report_length * n) (reports_bytes (listed told))) × (result ≡ n + length (listed told)) }
{
    match told {
        Told::Nobody => n,
        Told::One(r) => {
            report::put_report(buffer, n, r);
            n + 1
        }
        Told::Two(r, s) => {
            report::put_report(buffer, n, r);
            report::put_report(buffer, n + 1, s);
            n + 2
        }
    }
}

// A report about order i.
fn report_by(a: Notice, i: usize, amount: u64) -> Report
    requires { (a.to < 256) × (i < 65536) }
    ensures { result ≡ report_by a i amount }
{
    Report {
        to: a.to as u8,
        code: a.code,
        order: i as u16,
        amount,
    }
}

// A verdict's reports: there is no second without a first.
fn notices_told(told: Option<Notice>, also: Option<Notice>, i: usize, amount: u64) -> Told
    requires { ToldBelow 256 told × ToldBelow 256 also × (i < 65536) }
    ensures { result ≡ notices_told told also i amount }
{
    match (told, also) {
        (None, _) => Told::Nobody,
        (Some(a), None) => Told::One(report_by(a, i, amount)),
        (Some(a), Some(b)) => Told::Two(report_by(a, i, amount), report_by(b, i, amount)),
    }
}

pub fn put_notices(
    buffer: &mut [u8],
    n: usize,
    told: Option<Notice>,
    also: Option<Notice>,
    i: usize,
    amount: u64,
) -> usize
    requires { ToldBelow 256 told × ToldBelow 256 also × (i < 65536)
        × (report_length * n + report_length * length (listed (notices_told told also i amount)) ≤ length buffer.old) }
    ensures { (buffer.new ≡ sets buffer.old (report_length * n) (reports_bytes (listed (notices_told told also i amount))))
        × (result ≡ n + length (listed (notices_told told also i amount))) }
{
    put_told(buffer, n, notices_told(told, also, i, amount))
}
