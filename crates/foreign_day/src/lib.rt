// A whole day for a host program in another language: the day file in, the program's text out, both lent by the host.
#![tactic(auto)]

ghost use Rattle.std.specs.Prelude.{◌≡◌, ◌++◌, length, take, drop};
ghost use Rattle.rules.specs.Program.{output};
ghost use Rattle.foreign_day.specs.LentText.{lent};

use output::{Day, batch};

// Fills room with the piece, as far as it reaches.
fn fill(piece: &[u8], room: &mut [u8])
    ensures { room.new ≡ lent piece.now room.old }
{
    let n = piece.len().min(room.len());
    room[..n].copy_from_slice(&piece[..n]);
}

// The piece in the text from a place on, as far as the text reaches.
fn put_piece(piece: &[u8], text: &mut [u8], at: usize)
    ensures { text.new ≡ take at text.old ++ lent piece.now (drop at text.old) }
{
    if at < text.len() {
        fill(piece, &mut text[at..]);
    }
}

// What the clearing program prints of the file. The answer is how many bytes that is; the text has as many of them as it has room
// for, and keeps its bytes behind them.
#[unsafe(no_mangle)]
pub extern "C" fn zolfigar_day(file: &[u8], text: &mut [u8]) -> usize
    ensures { (result ≡ length (output file.now)) × (text.new ≡ lent (output file.now) text.old) }
{
    let mut piece = [0u8; batch::MOST_TEXT];
    let mut day = Day::begin(file);
    let mut at = 0;
    while let Some(length) = day.next_piece(file, &mut piece) {
        put_piece(&piece[..length], text, at);
        at += length;
    }
    at
}
