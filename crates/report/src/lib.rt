// A report of 12 bytes: writing report n into a lent buffer, and reading it. A caller sees to it that it lies within the buffer.
#![tactic(auto)]

pub mod answer;

ghost use Rattle.std.specs.Prelude.{◌≡◌, ◌+◌, ◌*◌, ◌≤◌, length};
ghost use Rattle.std.proofs.lemmas.List.Edits.{sets};
ghost use Rattle.report.specs.ReportLayout.{report_length, report_bytes, report_at};

pub const LENGTH: usize = 12;

#[derive(Clone, Copy)]
pub struct Report {
    pub to: u8,
    pub code: u8,
    pub order: u16,
    pub amount: u64,
}

pub fn put_report(buffer: &mut [u8], n: usize, r: Report)
    requires { report_length * n + report_length ≤ length buffer.old }
    ensures { buffer.new ≡ sets buffer.old (report_length * n) (report_bytes r) }
{
    let at = LENGTH * n;
    buffer[at] = r.to;
    buffer[at + 1] = r.code;
    let order = r.order;
    fields::put_u16(buffer, at + 2, order);
    let amount = r.amount;
    fields::put_u64(buffer, at + 4, amount);
}

pub fn report_at(buffer: &[u8], n: usize) -> Report
    requires { report_length * n + report_length ≤ length buffer.now }
    ensures { result ≡ report_at buffer.now n }
{
    let at = LENGTH * n;
    Report {
        to: buffer[at],
        code: buffer[at + 1],
        order: fields::u16_at(buffer, at + 2),
        amount: fields::u64_at(buffer, at + 4),
    }
}
