//! Whether the words are in order: the program's name, the job and its numbers, and last the option.
ghost use Rattle.std.specs.Prelude.{◌≡◌, length, map, string_bytes};
ghost use Rattle.std.specs.List.{position_or_len};
ghost use Rattle.sph_words.specs.Jobs.{is_within};
ghost use Rattle.sph_words.specs.Texts.{begins_with_hyphen};
ghost use Rattle.sph_words.specs.inner.Asked.{is_handed, is_option, is_valued};

/// The words are in order, and no text among them begins with a hyphen, so `clap` takes them.
pub fn are_in_order(words: &[String]) -> bool
    ensures { result ≡ is_handed (map string_bytes words.now) }
{
    if words.is_empty() {
        return false;
    }
    let arguments = &words[1..];
    let (before, option) = arguments.split_at(cut_of(arguments));
    are_few(before) && is_option(option)
}

/// They are a job, or a job and one or two numbers.
fn are_few(words: &[String]) -> bool
    ensures { result ≡ is_within 1 3 (length words.now) }
{
    (1..=3).contains(&words.len())
}

/// How many words stand before the first that begins with a hyphen.
fn cut_of(words: &[String]) -> usize
    ensures { result ≡ position_or_len begins_with_hyphen (map string_bytes words.now) }
{
    words
        .iter()
        .position(|word| begins_with_hyphen(word))
        .unwrap_or(words.len())
}

/// These words are nothing, or the option with a text that doesn't begin with a hyphen.
fn is_option(words: &[String]) -> bool
    ensures { result ≡ is_option (map string_bytes words.now) }
{
    match words {
        [] => true,
        [word] => is_valued(word),
        [word, text] => word.as_str() == "--workers" && !begins_with_hyphen(text),
        _ => false,
    }
}

/// The word is `--workers=` with such a text.
fn is_valued(word: &str) -> bool
    ensures { result ≡ is_valued word.now }
{
    match word.strip_prefix("--workers=") {
        Some(text) => !begins_with_hyphen(text),
        None => false,
    }
}

fn begins_with_hyphen(word: &str) -> bool
    ensures { result ≡ begins_with_hyphen word.now }
{
    word.starts_with('-')
}
