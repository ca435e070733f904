//! Which words are names.

ghost use Rattle.std.specs.Prelude.{◌≡◌};
ghost use Rattle.ftl_tokens.specs.scanner.Kinds.{kind_of_word};
ghost use Rattle.ftl_document.specs.plain.Plain.{is_name_kind};

/// Whether the word is no reserved one. All of those begin with small letters.
#[inline(always)]
pub(crate) fn is_name(word: &str) -> bool
    ensures name { result ≡ is_name_kind (kind_of_word word.now) }
{
    let bytes = word.as_bytes();
    if !bytes.is_empty() && bytes[0] < b'a' {
        return true;
    }
    is_free(word)
}

#[inline(always)]
#[tactic(auto, unfolding(ftl_tokens::specs::scanner::Kinds::kind_of_word))]
fn is_free(word: &str) -> bool
    ensures free { result ≡ is_name_kind (kind_of_word word.now) }
{
    match word.len() {
        2 => match word {
            "if" => false,
            "or" => false,
            _ => true,
        },
        3 => match word {
            "inh" => false,
            "syn" => false,
            "acc" => false,
            "min" => false,
            "max" => false,
            _ => true,
        },
        4 => match word {
            "root" => false,
            "show" => false,
            "self" => false,
            "this" => false,
            "prev" => false,
            "last" => false,
            "then" => false,
            "fold" => false,
            "from" => false,
            "with" => false,
            "else" => false,
            _ => true,
        },
        5 => match word {
            "class" => false,
            "input" => false,
            "local" => false,
            "first" => false,
            _ => true,
        },
        9 if word == "interface" => false,
        _ => true,
    }
}
