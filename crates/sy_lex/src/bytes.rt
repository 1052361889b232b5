ghost use Rattle.std.specs.Prelude.{◌≡◌, ◌≤◌, length};
ghost use Rattle.std.specs.List.{prefix_len};
ghost use Rattle.sy_lex.specs.Bytes as bytes;
ghost use Rattle.sy_lex.specs.Bytes.{is_comment_byte, is_digit, is_word_byte};

/// Whether it is a letter, A to Z or a to z.
pub(crate) fn is_letter(byte: u8) -> bool
    ensures { result ≡ bytes.is_letter byte }
{
    byte.is_ascii_alphabetic()
}

/// Whether it may stand in a word: a letter, a digit or `_`.
fn is_in_word(byte: u8) -> bool
    ensures { result ≡ is_word_byte byte }
{
    byte.is_ascii_alphanumeric() || byte == b'_'
}

/// Whether it is a space, a tab, a carriage return or a newline.
pub(crate) fn is_blank(byte: u8) -> bool
    ensures { result ≡ bytes.is_blank byte }
{
    matches!(byte, b' ' | b'\t' | b'\r' | b'\n')
}

/// How many bytes at the front are letters, digits and `_`.
pub(crate) fn word_length(bytes: &[u8]) -> usize
    ensures value { result ≡ prefix_len is_word_byte bytes.now }
    ensures within { result ≤ length bytes.now }
{
    bytes.iter().take_while(|byte| is_in_word(**byte)).count()
}

/// How many bytes at the front are digits.
pub(crate) fn digits_length(bytes: &[u8]) -> usize
    ensures value { result ≡ prefix_len is_digit bytes.now }
    ensures within { result ≤ length bytes.now }
{
    bytes
        .iter()
        .take_while(|byte| byte.is_ascii_digit())
        .count()
}

/// How many bytes at the front stand before a newline.
pub(crate) fn line_length(bytes: &[u8]) -> usize
    ensures value { result ≡ prefix_len is_comment_byte bytes.now }
    ensures within { result ≤ length bytes.now }
{
    bytes.iter().take_while(|byte| **byte != b'\n').count()
}
