ghost use Rattle.std.specs.Prelude.{◌≡◌, ◌<◌, ◌++◌, [], MatchOption, IfSome, IfNone, IsUtf8};
ghost use Rattle.std.specs.Prelude.{length, encode_utf8, ◌≤◌};
ghost use Rattle.std.specs.List.{prefix_len};
ghost use Rattle.std.specs.Char.{is_ascii_digit};
ghost use Rattle.aql_lex.specs.Characters.{is_blank, is_letter, is_word_part, is_quote};
ghost use Rattle.aql_lex.specs.Numbers.{is_fraction, begins_digit};

pub(crate) fn is_blank(character: char) -> bool
    ensures { result ≡ is_blank character }
{
    matches!(character, ' ' | '\t' | '\r' | '\n')
}

pub(crate) fn is_letter(character: char) -> bool
    ensures { result ≡ is_letter character }
{
    character.is_ascii_alphabetic() || character == '_'
}

pub(crate) fn is_quote(character: char) -> bool
    ensures { result ≡ is_quote character }
{
    character == '"' || character == '\''
}

fn is_word_part(byte: u8) -> bool
    ensures { result ≡ is_word_part byte }
{
    byte.is_ascii_alphanumeric() || byte == b'_'
}

// How many bytes at the front belong to a word.
pub(crate) fn word_len(text: &[u8]) -> usize
    ensures value { result ≡ prefix_len is_word_part text.now }
    ensures within { result ≤ length text.now }
{
    text.iter().take_while(|byte| is_word_part(**byte)).count()
}

// How many digits stand at the front.
pub(crate) fn digits_len(text: &[u8]) -> usize
    ensures value { result ≡ prefix_len is_ascii_digit text.now }
    ensures within { result ≤ length text.now }
{
    text.iter().take_while(|byte| byte.is_ascii_digit()).count()
}

fn begins_digit(text: &[u8]) -> bool
    ensures { result ≡ begins_digit text.now }
{
    match text {
        [digit, ..] => digit.is_ascii_digit(),
        [] => false,
    }
}

// Whether what stands after digits makes them a number with a fraction or an exponent.
pub(crate) fn is_fraction(after: &[u8]) -> bool
    ensures { result ≡ is_fraction after.now }
{
    match after {
        [b'.', digits @ ..] => begins_digit(digits),
        [b'e' | b'E', b'+' | b'-', digits @ ..] => begins_digit(digits),
        [b'e' | b'E', digits @ ..] => begins_digit(digits),
        _ => false,
    }
}

// The first character, and what stands after it.
pub(crate) fn first_character(text: &str) -> Option<(char, &str)>
    ensures split { MatchOption result (text.now ≡ [])
        (λ p. text.now ≡ encode_utf8 p.0 ++ p.1.now) }
    ensures utf8 { IfSome result (λ p. IsUtf8 p.1.now) }
    ensures shorter { IfSome result (λ p. length p.1.now < length text.now) }
{
    let mut characters = text.chars();
    let first = characters.next()?;
    Some((first, characters.as_str()))
}
