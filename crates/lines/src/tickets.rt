// The lines of tickets and their reports, from the buffers that answers and reports are laid down in.
ghost use Rattle.std.specs.Prelude.{◌+◌, ◌*◌, ◌≤◌, length};
ghost use Rattle.report.specs.ReportLayout.{report_length};
ghost use Rattle.lines.specs.Written.{Written};
ghost use Rattle.lines.specs.Lines.{answer_line, report_line, reports_to, ticket_text, lines_to, longest_line, Lined};

use super::line;
use report::Report;
use report::answer::Answer;

fn put_answer_line(text: &mut [u8], at: usize, n: usize, a: Answer) -> usize
    requires { at + longest_line ≤ length text.old }
    ensures { Written text.old text.new at (answer_line n a) result × (result ≤ at + longest_line) }
{
    line::put_line(
        text,
        at,
        b'T',
        &[n as u64, a.refusal as u64, a.reports as u64, a.rows as u64],
    )
}

fn put_report_line(text: &mut [u8], at: usize, r: Report) -> usize
    requires { at + longest_line ≤ length text.old }
    ensures { Written text.old text.new at (report_line r) result × (result ≤ at + longest_line) }
{
    line::put_line(
        text,
        at,
        b'R',
        &[r.to as u64, r.code as u64, r.order as u64, r.amount],
    )
}

// Those of n reports, from number from on.
fn put_reports(text: &mut [u8], at: usize, reports: &[u8], from: usize, n: usize) -> usize
    requires { (report_length * (from + n) ≤ length reports.now) × (at + longest_line * n ≤ length text.old) }
    ensures { Written text.old text.new at (reports_to reports.now from n) result × (result ≤ at + longest_line * n) }
{
    let mut end = at;
    for i in 0..n {
        end = put_report_line(text, end, report::report_at(reports, from + i));
    }
    end
}

// Those of the ticket with number n, whose reports begin with number from.
fn put_ticket(text: &mut [u8], at: usize, n: usize, a: Answer, reports: &[u8], from: usize) -> usize
    requires { (report_length * (from + a.reports) ≤ length reports.now) × (at + longest_line * (1 + a.reports) ≤ length text.old) }
    ensures { Written text.old text.new at (ticket_text n a reports.now from) result
        × (result ≤ at + longest_line * (1 + a.reports)) }
{
    let end = put_answer_line(text, at, n, a);
    put_reports(text, end, reports, from, a.reports as usize)
}

// Those of taken tickets, numbered from k on.
pub fn put_lines(k: usize, taken: usize, answers: &[u8], reports: &[u8], text: &mut [u8]) -> usize
    requires { Lined k taken answers.now reports.now text.old }
    ensures { Written text.old text.new 0 (lines_to k taken answers.now reports.now) result
        × (result ≤ length text.old) }
{
    let mut at = 0;
    let mut from = 0;
    for i in 0..taken {
        let a = report::answer::answer_at(answers, i);
        at = put_ticket(text, at, k + i, a, reports, from);
        from += a.reports as usize;
    }
    at
}
