// The limits of prices, each with its name.

// A program whose price is above this, 2^62, isn't taken.
pub const MAX_PRICE: u64 = 1 << 62;

// What a table of prices holds for any price above the limit: the first number above it.
pub const PRICE_CAP: u64 = MAX_PRICE + 1;
