//! Numbers in words.

ghost use Rattle.std.specs.Prelude.{◌≡◌};
ghost use Rattle.relay_words.specs.Numbers.{is_plain as is_plain_of, number_of};
ghost use Rattle.std.specs.Char.{is_ascii_digit};
ghost use Rattle.std.specs.List.{list_all};

/// The number that a word is, in 1 to 10 decimal digits. Only `0` itself begins with a 0.
pub fn read_number(word: &str) -> Option<u64>
    ensures { result ≡ number_of word.now }
{
    if is_numeral(word.as_bytes()) && is_plain(word.as_bytes()) {
        word.parse::<u64>().ok()
    } else {
        None
    }
}

fn is_numeral(word: &[u8]) -> bool
    ensures { result ≡ list_all is_ascii_digit word.now }
{
    word.iter().all(|byte| byte.is_ascii_digit())
}

/// 1 to 10 bytes, of which only a single one may be a 0 in front.
fn is_plain(word: &[u8]) -> bool
    ensures { result ≡ is_plain_of word.now }
{
    match word {
        [] => false,
        [_] => true,
        [first, ..] => *first != b'0' && word.len() <= 10,
    }
}
