// A day's text on standard output, for the programs.
use super::batch;
use super::piece::Day;
use std::io;

// It stops where a piece can't be written, with the error. No rule says what can be written, so nothing is promised of it.
pub fn print_day(rt: &impl Print, file: &[u8]) -> io::Result<()> {
    let mut text = [0u8; batch::MOST_TEXT];
    let mut day = Day::begin(file);
    while let Some(length) = day.next_piece(file, &mut text) {
        rt.write_all(&text[..length])?;
    }
    Ok(())
}
