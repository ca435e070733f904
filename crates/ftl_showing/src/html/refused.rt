//! Refusals as HTML.

use crate::html::escaped::push_escaped;
use crate::html::opening::push_opening;
use crate::html::script::FIND_MARK;
use crate::html::source::push_source;
use ftl_refusals::Spot;
use std::alloc::{AllocError, Global};

/// The text of a file that is refused, with the place marked, below what is told of it.
pub fn refused_html(
    alloc: Global,
    name: &str,
    text: &str,
    spot: Option<Spot>,
    told: &str,
) -> Result<String, AllocError> {
    let mut out = String::new(alloc);
    push_opening(&mut out, name, "refused")?;
    out.push_str("<main class=\"refused\">\n<pre class=\"refusal\" role=\"alert\">\n")?;
    push_escaped(&mut out, told)?;
    out.push_str("</pre>\n")?;
    push_source(&mut out, text, spot)?;
    out.push_str("</main>\n<script>\n")?;
    out.push_str(FIND_MARK)?;
    out.push_str("</script>\n</body>\n</html>\n")?;
    Ok(out)
}
