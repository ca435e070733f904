//! The tests of sources and sinks, apart from them, so that these are proved once.

#[cfg(test)]
mod tests;
