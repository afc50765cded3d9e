//! The words and their letters.

ghost use Rattle.std.specs.Prelude.{◌≡◌};
ghost use Rattle.expr_reader.specs.Words.{letters, found_in, word_of};

use crate::token::{Choice, Name, Word};

/// The words that have letters.
const WORDS: [Word; 15] = [
    Word::Named(Name::Null),
    Word::Named(Name::Mem),
    Word::Named(Name::Region),
    Word::Named(Name::Bitmap),
    Word::Named(Name::Kr),
    Word::Named(Name::FreeList),
    Word::Named(Name::Quantize),
    Word::Named(Name::Stats),
    Word::Named(Name::Affix),
    Word::Named(Name::Segregate),
    Word::Named(Name::Buckets),
    Word::Named(Name::Fallback),
    Word::Named(Name::List),
    Word::Chosen(Choice::Any),
    Word::Chosen(Choice::Pow2),
];

/// The letters of a word.
pub fn letters(word: Word) -> &'static str
    ensures { result.now ≡ letters word }
{
    match word {
        Word::Named(name) => match name {
            Name::Null => "null",
            Name::Mem => "mem",
            Name::Region => "region",
            Name::Bitmap => "bitmap",
            Name::Kr => "kr",
            Name::FreeList => "freelist",
            Name::Quantize => "quantize",
            Name::Stats => "stats",
            Name::Affix => "affix",
            Name::Segregate => "segregate",
            Name::Buckets => "buckets",
            Name::Fallback => "fallback",
            Name::List => "list",
        },
        Word::Chosen(choice) => match choice {
            Choice::Any => "any",
            Choice::Pow2 => "pow2",
        },
        Word::Unknown => "",
    }
}

/// The first of some words that has these letters.
fn found_in(words: &[Word], bytes: &[u8]) -> Word
    ensures { result ≡ found_in words.now bytes.now }
{
    for word in words {
        if bytes == letters(*word).as_bytes() {
            return *word;
        }
    }
    Word::Unknown
}

/// The word with these letters.
pub fn word(bytes: &[u8]) -> Word
    ensures { result ≡ word_of bytes.now }
{
    found_in(&WORDS, bytes)
}
