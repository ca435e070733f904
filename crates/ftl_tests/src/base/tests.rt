mod arithmetic;
mod comparisons;
mod stack;
mod words;

/// In a table the number that stands for Overflow.
const OVER: i64 = 140737488355328;
