//! Worked pages. They stand above `ftl_page::sections`, which is so proved once and not once more
//! with them.

#[cfg(test)]
mod tests;
