//! Which word was meant by one that is unknown.

ghost use Rattle.std.specs.Prelude.{◌≡◌, map, option_map};
ghost use Rattle.capdiag.specs.Guesses.{first_near, guess_of, is_near, is_swapped, known_words, options_of};

use crate::complaints::Complaint;

// Whether two texts begin with the same two characters in either order, and then go on alike.
fn is_swapped(one: &[u8], other: &[u8]) -> bool
    ensures value { result ≡ is_swapped one.now other.now }
{
    let ([x, next, one @ ..], [y, after, other @ ..]) = (one, other) else {
        return false;
    };
    x == after && next == y && one == other
}

// Whether two texts differ by one character that is changed, missing or more, or by two neighbours in the other order.
fn is_near(one: &[u8], other: &[u8]) -> bool
    ensures value { result ≡ is_near one.now other.now }
{
    let Some((x, after_x)) = one.split_first() else {
        return other.len() == 1;
    };
    let Some((y, after_y)) = other.split_first() else {
        return one.len() == 1;
    };
    if x == y {
        return is_near(after_x, after_y);
    }
    after_x == after_y || after_x == other || one == after_y || is_swapped(one, other)
}

// The first of some words that is near to one.
fn first_near(known: &[&'static str], word: &str) -> Option<&'static str>
    ensures value { option_map (λ it. it.now) result ≡ first_near (map (λ it. it.now) known.now) word.now }
{
    let (first, known) = known.split_first()?;
    if is_near(first.as_bytes(), word.as_bytes()) {
        return Some(*first);
    }
    first_near(known, word)
}

// The options that stand after a command, or in its place.
fn options_of(command: &str) -> &'static [&'static str]
    ensures value { map (λ it. it.now) result.now ≡ options_of command.now }
{
    match command {
        "why" => &[
            "--origins",
            "--freed",
            "--owners",
            "--owned",
            "--context",
            "--json",
            "--progress",
            "--help",
        ],
        "heap" => &[
            "--report",
            "--why",
            "--context",
            "--json",
            "--progress",
            "--help",
        ],
        "run" => &[
            "--freed",
            "--owners",
            "--owned",
            "--why",
            "--context",
            "--json",
            "--progress",
            "--help",
        ],
        _ => &["--help", "--version"],
    }
}

// The words for which an unknown one may stand: the commands, or the options of its command.
fn known_words(complaint: Complaint, words: &[&str]) -> &'static [&'static str]
    ensures value { map (λ it. it.now) result.now ≡ known_words complaint (map (λ word. word.now) words.now) }
{
    match complaint {
        Complaint::UnknownCommand => &["why", "heap", "run", "help"],
        Complaint::UnknownOption => match words.split_first() {
            Some((command, _)) => options_of(command),
            None => &[],
        },
        _ => &[],
    }
}

/// The word that was meant by one that is wrong, if one is near to it.
pub fn guess_of(complaint: Complaint, words: &[&str], word: &str) -> Option<&'static str>
    ensures value { option_map (λ it. it.now) result ≡ guess_of complaint (map (λ word. word.now) words.now) word.now }
{
    first_near(known_words(complaint, words), word)
}
