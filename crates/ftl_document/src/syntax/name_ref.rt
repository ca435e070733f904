//! A name where it stands in the text.
ghost use Rattle.std.specs.Prelude.{◌≡◌};

use std::marker::Model;

/// A name of a document, without a copy of it. Contracts see its bytes.
#[derive(Drop)]
pub struct NameRef<'a> {
    text: &'a str,
}

impl<'a> Model for NameRef<'a> {
    ghost use Rattle.std.specs.Prelude.{ℕ, List};

    ghost Value = { List ℕ };

    ghost view = { λ r. r.text.now };
}

impl<'a> NameRef<'a> {
    pub fn new(text: &'a str) -> NameRef<'a>
        ensures name { result ≡ text.now }
    {
        NameRef { text }
    }

    pub fn text(&self) -> &'a str
        ensures text { result.now ≡ self.now }
    {
        self.text
    }
}
