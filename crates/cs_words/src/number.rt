// Numbers among the words: 1 to 20 decimal digits, where zeros may lead.
ghost use Rattle.std.specs.Prelude.{◌≡◌, ◌<◌, ◌≤◌, ◌^◌, length, IsTrue};
ghost use Rattle.cs_words.specs.Numbers.{number_of, value_of, are_digits, contexts_of};

use cs_base::Contexts;

const MOST_DIGITS: usize = 20;

/// The number that a word stands for, and None where it is no number.
pub(crate) fn number_of(word: &[u8]) -> Option<u128>
    ensures { result ≡ number_of word.now }
{
    if word.is_empty() || word.len() > MOST_DIGITS || !are_digits(word) {
        return None;
    }
    Some(value(word))
}

fn are_digits(word: &[u8]) -> bool
    ensures { result ≡ are_digits word.now }
{
    word.iter().all(|byte| 48 <= *byte && *byte <= 57)
}

fn value(word: &[u8]) -> u128
    requires digits { IsTrue (are_digits word.now) }
    requires few { length word.now ≤ 20 }
    ensures { result ≡ value_of word.now }
{
    let mut value = 0u128;
    for byte in word {
        value = value * 10 + u128::from(*byte - 48);
    }
    value
}

/// The contexts that a word stands for, and None where it stands for no number from 1 to 16.
pub(crate) fn contexts_of(word: &[u8]) -> Option<Contexts>
    ensures { result ≡ contexts_of word.now }
{
    let number = number_of(word)?;
    if number > 16 {
        return None;
    }
    Contexts::new(number as u64)
}
