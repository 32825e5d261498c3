//! The names of a batch.

ghost use Rattle.std.specs.Prelude.{◌≡◌, ◌<◌, length, [], IfSome, nat_eq};
ghost use Rattle.std.specs.List.{ends_with, list_any};
ghost use Rattle.std.specs.Str.{bytes_eq};
ghost use Rattle.relay_words.specs.Names.{can_join as can_join_of, is_name as is_name_of, misnamed as misnamed_of};
ghost use Rattle.relay_words.specs.Words.{texts};

/// The greatest number of names.
const MOST_NAMES: usize = 256;

/// The length of the longest name, in bytes.
const LONGEST_NAME: usize = 255;

/// The index of the first of these words that can't be a name behind those before it.
pub(crate) fn misnamed(words: &[String]) -> Option<usize>
    ensures value { result ≡ misnamed_of [] (texts words.now) }
    ensures within { IfSome result (λ at. at < length words.now) }
{
    let mut rest = words;
    while let Some((word, behind)) = rest.split_first() {
        let at = words.len() - rest.len();
        if !can_join(&words[..at], word.as_str()) {
            return Some(at);
        }
        rest = behind;
    }
    None
}

/// Whether a word can be the next name behind these. They are looked through only where there are few enough of them.
fn can_join(names: &[String], word: &str) -> bool
    ensures { result ≡ can_join_of (texts names.now) word.now }
{
    names.len() < MOST_NAMES && is_name(word) && !is_among(names, word)
}

fn is_name(word: &str) -> bool
    ensures { result ≡ is_name_of word.now }
{
    1 <= word.len() && word.len() <= LONGEST_NAME && !ends(word, ".out")
}

fn ends(word: &str, end: &str) -> bool
    ensures { result ≡ ends_with nat_eq word.now end.now }
{
    word.ends_with(end)
}

fn is_among(names: &[String], word: &str) -> bool
    ensures { result ≡ list_any (bytes_eq word.now) (texts names.now) }
{
    names.iter().any(|name| word == name.as_str())
}
