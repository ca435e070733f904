//! Shipped texts and samples. They stand above `ftl_boxes`, which is so proved once and not once
//! more with them.

#[cfg(test)]
mod tests;
