// The static library of `foreign_day`: a whole day for a host program in C (include/zolfigar.h).
#![tactic(auto)]

ghost use Rattle.std.specs.Prelude.{◌≡◌, length};
ghost use Rattle.rules.specs.Program.{output};
ghost use Rattle.foreign_day.specs.LentText.{lent};

// What the clearing program prints of the file. The answer is how many bytes that is; the text has as many of them as it has room
// for, and keeps its bytes behind them.
#[unsafe(no_mangle)]
pub extern "C" fn zolfigar_day(file: &[u8], text: &mut [u8]) -> usize
    ensures { (result ≡ length (output file.now)) × (text.new ≡ lent (output file.now) text.old) }
{
    foreign_day::zolfigar_day(file, text)
}
