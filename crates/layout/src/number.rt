// What stands for 0 where a number may be negative.
pub const ZERO: u64 = 2147483648;
