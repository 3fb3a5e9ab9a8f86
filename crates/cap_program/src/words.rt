//! The words that a program was called with.

ghost use Rattle.std.specs.Prelude.{◌≡◌, ◌∷◌, ◌++◌, List, ℕ, false, map};
ghost use Rattle.cap_program.specs.Words.{is_operand, option_word};

use std::alloc::AllocError;
use std::env;
use std::io::ErrorKind;

/// The words after the program's name, or `None` if one of them is no text.
pub fn collect_words(rt: &HostRuntime) -> Result<Option<Vec<String>>, AllocError> {
    let args = match env::args(rt) {
        Ok(args) => args,
        Err(error) => {
            if error.kind() == ErrorKind::OutOfMemory {
                return Err(AllocError);
            }
            return Ok(None);
        }
    };
    let mut words = Vec::new(rt.alloc());
    for arg in args.skip(1) {
        words.push(arg)?;
    }
    Ok(Some(words))
}

/// Whether words begin with an option, and the words after it.
pub fn take_option<'w, 'a>(option: &str, words: &'w [&'a str]) -> (bool, &'w [&'a str])
    ensures taken { map (λ word. word.now) words.now ≡ option_word result.0 option.now ++ map (λ word. word.now) result.1.now }
    ensures absent { result.0 ≡ false → (rest : List (List ℕ)) → map (λ word. word.now) words.now ≡ option.now ∷ rest → ⊥ }
{
    let Some((first, rest)) = words.split_first() else {
        return (false, words);
    };
    if *first == option {
        return (true, rest);
    }
    (false, words)
}

/// Whether a word is an operand and no option: it does not begin with `-`.
pub fn is_operand(word: &str) -> bool
    ensures value { result ≡ is_operand word.now }
{
    !word.as_bytes().starts_with(b"-")
}
