//! Numbers among the words.
ghost use Rattle.std.specs.Prelude.{◌≡◌, ◌==◌, option_map, slice_index, not};
ghost use Rattle.sph_words.specs.Numbers.{given_of, has_no_leading_zero, number_of};

/// What stands at the place of a number.
#[derive(Clone, Copy, Debug, PartialEq, Eq)]
pub enum Given {
    /// Nothing.
    Absent,
    /// A number.
    Number(u64),
    /// A text that is no number.
    NoNumber,
}

/// What the text gives there.
pub fn read_given(text: Option<&str>) -> Given
    ensures { result ≡ given_of (option_map (λ t. t.now) text.entry) }
{
    match text {
        None => Given::Absent,
        Some(text) => match number(text) {
            Some(number) => Given::Number(number),
            None => Given::NoNumber,
        },
    }
}

/// The number that the text is.
fn number(text: &str) -> Option<u64>
    ensures { result ≡ number_of text.now }
{
    if has_leading_zero(text) || text.starts_with('+') {
        return None;
    }
    text.parse().ok()
}

/// The first byte is a zero, and not the only one.
fn has_leading_zero(text: &str) -> bool
    ensures { result ≡ not (has_no_leading_zero text.now) }
{
    text.starts_with('0') && text.len() != 1
}
