//! Laws of the definitions.

ghost use Rattle.std.specs.Prelude.{◌≡◌, ℕ, List};
ghost use Rattle.std.specs.Str.{chars};
ghost use Rattle.ftl_tokens.specs.scanner.Scan.{Scanning, scan};
ghost use Rattle.ftl_tokens.specs.scanner.Scans.{Scans};

/// A scan cuts its text into white space, comments and longest tokens, up to the first place at
/// which none of them begins or a number is above the greatest. Each text has one scan: whatever it
/// may be cut into has the same tokens, or the same fault.
pub fn law_of_scan()
    ensures scans { (greatest : ℕ) (text : List ℕ)
        → Scans greatest 0 (chars text) (scan greatest text) }
    ensures agrees { (greatest : ℕ) (text : List ℕ) (found : Scanning)
        → Scans greatest 0 (chars text) found → found ≡ scan greatest text }
    ensures one { (greatest at : ℕ) (text : List ℕ) (found other : Scanning)
        → Scans greatest at text found → Scans greatest at text other → found ≡ other }
{}
