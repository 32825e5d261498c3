//! The keys behind the framings.

ghost use Rattle.std.specs.Prelude.{◌≡◌, ◌≤◌, ◌&&◌, nat_le, IfSome, ◌+◌, ◌∷◌, [], ℕ, List, Some, None, Ok, Err, if◌then◌else◌, length, take, drop, nat_eq};
ghost use Rattle.relay_words.specs.Numbers.{number_of, number_within as number_within_of};
ghost use Rattle.std.specs.List.{prefix_len, starts_with};
ghost use Rattle.relay_words.specs.Keys.{adds, given_by as given_by_of, is_keyed as is_keyed_of, is_new as is_new_of, keys_among, keys_with, number_of_key as number_of_key_of};
ghost use Rattle.relay_words.specs.Words.{misplaced, texts};

use crate::number::read_number;

/// The number of a key that is given.
#[derive(Clone, Copy)]
pub struct Given {
    pub number: u64,
    /// The index of its word.
    pub word: usize,
}

/// The keys that are given.
#[derive(Clone, Copy)]
pub struct Keys {
    pub max: Option<Given>,
    pub seg: Option<Given>,
    pub pause: Option<Given>,
    pub resume: Option<Given>,
}

/// The keys of a relay of `count` words, or the index of the first that can't be read where it stands.
pub fn keys_in(keys: &[String], count: usize) -> Result<Keys, usize>
    requires { count ≡ 3 + length keys.now }
    ensures { (input output : List ℕ) → result ≡ elim (misplaced (input ∷ output ∷ []) (texts keys.now)) [ None ↦ Ok (keys_among (texts keys.now)) | Some at ↦ Err at ] }
{
    let mut given = Keys {
        max: None,
        seg: None,
        pause: None,
        resume: None,
    };
    let mut rest = keys;
    while let Some((word, behind)) = rest.split_first() {
        let at = count - rest.len();
        let Some(more) = given.with(word.as_str(), at) else {
            return Err(at);
        };
        given = more;
        rest = behind;
    }
    Ok(given)
}

impl Keys {
    /// These keys and that of a word, where it is a key that isn't given yet.
    fn with(self, word: &str, at: usize) -> Option<Keys>
        ensures { result ≡ if adds self word.now then Some (keys_with at word.now self) else None }
    {
        let max = number_of_key("max=", 0, 268_435_455, word);
        let seg = number_of_key("seg=", 64, 65_536, word);
        let pause = number_of_key("pause=", 0, 16_777_216, word);
        let resume = number_of_key("resume=", 1, 16_777_216, word);
        if is_new(max, self.max)
            || is_new(seg, self.seg)
            || is_new(pause, self.pause)
            || is_new(resume, self.resume)
        {
            Some(Keys {
                max: given_by(at, max, self.max),
                seg: given_by(at, seg, self.seg),
                pause: given_by(at, pause, self.pause),
                resume: given_by(at, resume, self.resume),
            })
        } else {
            None
        }
    }
}

fn is_new(number: Option<u64>, before: Option<Given>) -> bool
    ensures { result ≡ is_new_of number before }
{
    number.is_some() && before.is_none()
}

fn given_by(at: usize, number: Option<u64>, before: Option<Given>) -> Option<Given>
    ensures { result ≡ given_by_of at number before }
{
    match number {
        None => before,
        Some(number) => Some(Given { number, word: at }),
    }
}

/// The number of a word NAME=NUMBER, where it is in its range.
fn number_of_key(name: &str, least: u64, greatest: u64, word: &str) -> Option<u64>
    ensures { result ≡ number_of_key_of name.now least greatest word.now }
{
    match word.strip_prefix(name) {
        Some(number) => number_within(least, greatest, number),
        None => None,
    }
}

/// The number of a word, where it is in a range.
pub(crate) fn number_within(least: u64, greatest: u64, word: &str) -> Option<u64>
    ensures value { result ≡ number_within_of least greatest word.now }
    ensures within { IfSome result (λ n. (least ≤ n) × (n ≤ greatest)) }
{
    let number = read_number(word)?;
    if is_within(least, greatest, number) {
        Some(number)
    } else {
        None
    }
}

fn is_within(least: u64, greatest: u64, number: u64) -> bool
    ensures { result ≡ (nat_le least number && nat_le number greatest) }
{
    least <= number && number <= greatest
}

/// These words up to the first that begins as no key, and those from there on.
pub(crate) fn split_keys(words: &[String]) -> (&[String], &[String])
    ensures keys { texts result.0.now ≡ take (prefix_len is_keyed_of (texts words.now)) (texts words.now) }
    ensures behind { texts result.1.now ≡ drop (prefix_len is_keyed_of (texts words.now)) (texts words.now) }
    ensures parts { length result.0.now + length result.1.now ≡ length words.now }
{
    words.split_at(keyed_len(words))
}

/// How many of these words come before the first that begins as no key.
fn keyed_len(words: &[String]) -> usize
    ensures value { result ≡ prefix_len is_keyed_of (texts words.now) }
    ensures within { result ≤ length words.now }
{
    words
        .iter()
        .take_while(|word| is_keyed(word.as_str()))
        .count()
}

/// Whether a word begins as one of the keys does.
fn is_keyed(word: &str) -> bool
    ensures { result ≡ is_keyed_of word.now }
{
    begins(word, "max=")
        || begins(word, "seg=")
        || begins(word, "pause=")
        || begins(word, "resume=")
}

fn begins(word: &str, name: &str) -> bool
    ensures { result ≡ starts_with nat_eq word.now name.now }
{
    word.starts_with(name)
}
