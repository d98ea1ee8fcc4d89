// The static library of `foreign_steps`: a day's tickets, as bytes, for a host program in C (include/zolfigar.h) and for measuring.
#![tactic(auto)]

ghost use Rattle.foreign_steps.specs.Stepped.{Stepped};

// How many tickets were taken, or why none. Their answers, 4 bytes each, and their reports, 12 bytes each, are in the buffers, one after
// the other.
#[unsafe(no_mangle)]
pub extern "C" fn zolfigar_steps(file: &[u8], answers: &mut [u8], reports: &mut [u8]) -> usize
    ensures { Stepped file.now answers.old reports.old result answers.new reports.new }
{
    foreign_steps::zolfigar_steps(file, answers, reports)
}
