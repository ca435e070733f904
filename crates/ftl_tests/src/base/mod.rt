//! The tests of values and the stack, apart from them, so that these are proved once.

#[cfg(test)]
mod tests;
