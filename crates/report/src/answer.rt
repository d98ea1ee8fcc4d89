// What a ticket is answered, as 4 bytes: writing answer k into a lent buffer, and reading it. A caller sees to it that it lies
// within the buffer.
ghost use Rattle.std.specs.Prelude.{◌≡◌, ◌+◌, ◌*◌, ◌≤◌, length};
ghost use Rattle.std.proofs.lemmas.List.Edits.{sets};
ghost use Rattle.report.specs.Answer.{answer_length, answer_bytes, answer_at};

pub const LENGTH: usize = 4;

// Reports is how many reports the ticket gave, rows how many route rows were followed.
#[derive(Clone, Copy)]
pub struct Answer {
    pub refusal: u8,
    pub reports: u16,
    pub rows: u8,
}

pub fn put_answer(buffer: &mut [u8], k: usize, a: Answer)
    requires { answer_length * k + answer_length ≤ length buffer.old }
    ensures { buffer.new ≡ sets buffer.old (answer_length * k) (answer_bytes a) }
{
    let at = LENGTH * k;
    buffer[at] = a.refusal;
    let reports = a.reports;
    fields::put_u16(buffer, at + 1, reports);
    buffer[at + 3] = a.rows;
}

pub fn answer_at(buffer: &[u8], k: usize) -> Answer
    requires { answer_length * k + answer_length ≤ length buffer.now }
    ensures { result ≡ answer_at buffer.now k }
{
    let at = LENGTH * k;
    Answer {
        refusal: buffer[at],
        reports: fields::u16_at(buffer, at + 1),
        rows: buffer[at + 3],
    }
}
