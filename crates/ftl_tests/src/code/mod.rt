//! Worked code, from its instructions and its reads to its value. It stands above
//! `ftl_visit::rule_code`, which is so proved once and not once more with these tests.

#[cfg(test)]
mod numbers;
#[cfg(test)]
mod questions;
#[cfg(test)]
mod running;
