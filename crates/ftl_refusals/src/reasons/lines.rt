//! What the lines that refuse tell, as their words.

/// A rule as lines name it: `Row kids.x`.
#[derive(Clone, Copy)]
pub struct RuleName<'l> {
    pub class: &'l str,
    pub owner: &'l str,
    pub name: &'l str,
}

/// An attribute as lines name it: `Box.x`, `self.x`.
#[derive(Clone, Copy)]
pub struct PathName<'l> {
    pub owner: &'l str,
    pub name: &'l str,
}

/// What a line tells behind `refused grammar: `, say.
pub fn told_by(line: &str) -> &str {
    let line = line.strip_suffix("\n").unwrap_or(line);
    match line.split_once(": ") {
        Some((_, told)) => told,
        None => line,
    }
}

/// What stands between a beginning and an end.
pub fn between<'l>(told: &'l str, beginning: &str, end: &str) -> Option<&'l str> {
    told.strip_prefix(beginning)?.strip_suffix(end)
}

/// The rule that is named before such an end.
pub fn rule_before<'l>(told: &'l str, end: &str) -> Option<RuleName<'l>> {
    rule_named(told.strip_suffix(end)?)
}

/// The rule of this name.
pub fn rule_named(text: &str) -> Option<RuleName<'_>> {
    let (class, target) = text.split_once(' ')?;
    let (owner, name) = target.split_once('.')?;
    Some(RuleName { class, owner, name })
}

/// The attribute of this name.
pub fn path_named(text: &str) -> Option<PathName<'_>> {
    let (owner, name) = text.split_once('.')?;
    Some(PathName { owner, name })
}

/// The number that is written so.
pub fn number_named(text: &str) -> Option<usize> {
    match text.parse::<usize>() {
        Ok(number) => Some(number),
        Err(_) => None,
    }
}
