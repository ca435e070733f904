//! Numbers in words.

ghost use Rattle.std.specs.Prelude.{◌≡◌, ◌<◌, true};
ghost use Rattle.std.specs.Char.{is_ascii_digit};
ghost use Rattle.std.specs.List.{list_all};
ghost use Rattle.std.specs.Str.Parse.{digits_value};
ghost use Rattle.ftl_page.specs.workers.Numerals.{is_numeral, number_of};

/// The number that a word writes, where it is from 1 to the greatest.
pub fn number(greatest: u32, word: &str) -> Option<u32>
    ensures number { result ≡ number_of greatest word.now }
{
    if !is_numeral(word) {
        return None;
    }
    let number = value(word);
    if 0 < number && number <= greatest {
        Some(number)
    } else {
        None
    }
}

fn is_numeral(word: &str) -> bool
    ensures numeral { result ≡ is_numeral word.now }
{
    let bytes = word.as_bytes();
    !bytes.is_empty() && bytes.len() <= 7 && are_digits(bytes)
}

fn are_digits(bytes: &[u8]) -> bool
    ensures digits { result ≡ list_all is_ascii_digit bytes.now }
{
    for byte in bytes {
        if !byte.is_ascii_digit() {
            return false;
        }
    }
    true
}

/// The number that the digits write.
fn value(digits: &str) -> u32
    requires numeral { is_numeral digits.now ≡ true }
    ensures value { result ≡ digits_value 10 digits.now }
{
    digits.parse::<u32>().unwrap()
}
