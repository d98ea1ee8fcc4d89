// Fields of bytes: big-endian numbers at a place, padding with zero bytes, and whether two fields hold the same bytes; and what a
// search among rows finds.
#![tactic(auto)]

mod number;
mod search;
mod text;

pub use number::{put_u16, put_u64, u16_at, u24_at, u32_at, u64_at, zero_u16_at, zero_u64_at};
pub use search::found_or;
pub use text::{blank, copy, same_bytes, unpadded};
