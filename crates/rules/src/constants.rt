// The book's limits that the code asks in more than one place. The definitions of the same names are in specs/Refusal.antt and Tick.antt.

// 01, refusal 6: room for 544 reports
pub const LEAST_BUFFER: usize = 6528;

// 01: clock minus time at least 20
pub const TIME_LIMIT: u32 = 20;
