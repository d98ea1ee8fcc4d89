// What the programs share of reading and writing.
#![tactic(auto)]

ghost use Rattle.std.specs.Prelude.{◌≤◌, ◌++◌, length, take, codes, OnOk};
ghost use Rattle.std.specs.Io.KnownBytes.{Appends, Consumes};

use std::io;
use std::io::{Read, Write};

// Fills the buffer from the input, as far as there is any that can be read. Answers how many bytes that are.
pub fn read_full<R: Read>(input: &mut R, buffer: &mut [u8]) -> usize
    ensures within { result ≤ length buffer.new }
    ensures bytes { Consumes (R.remaining input.old) (R.remaining input.new) (take result buffer.new) }
{
    let mut n = 0;
    while n < buffer.len() {
        match input.read(&mut buffer[n..]) {
            Ok(0) | Err(_) => break,
            Ok(got) => n += got,
        }
    }
    n
}

// The line that names a day.
pub fn write_name<W: Write>(to: &mut W, name: &[u8]) -> io::Result<()>
    ensures { OnOk result (Appends (W.contents to.old) (W.contents to.new)
        (codes "# " ++ (name.now ++ codes "\n"))) }
{
    to.write_all(b"# ")?;
    to.write_all(name)?;
    to.write_all(b"\n")
}
