// The limits of vessels and moves.

// The highest top of a vessel.
pub const MOST_TOP: u32 = 2_560_000;

// The most litres that a drawn vessel loses at a pour.
pub const MOST_DRAW: u32 = 10_000;

// The most litres that one move pours in or takes out.
pub const MOST_AMOUNT: i32 = 10_000;

// The most fills that are marked.
pub const MOST_FILLS: u64 = 65_536;
