// The limits of a day file and the lengths of its parts.
pub const MOST_PARTICIPANTS: usize = 32;

pub const MOST_ROUTES: usize = 64;

pub const MOST_TICKETS: usize = 512;

pub const MOST_OPENING: u64 = 1000000000000000;

pub const HEADER_LENGTH: usize = 12;

pub const PARTICIPANT_LENGTH: usize = 24;

pub const ROUTE_LENGTH: usize = 16;

// One byte more than the longest day has: a program that reads as much can tell a longer input.
pub const MOST_READ: usize = 57101;
