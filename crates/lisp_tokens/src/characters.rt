//! The kinds of characters (HyperSpec 2.1.4).
ghost use Rattle.std.specs.Prelude.{◌≡◌, ◌<◌, ◌≤◌, length, drop, IsTrue};
ghost use Rattle.std.specs.List.{prefix_len};
ghost use Rattle.lisp_tokens.specs.Characters.{is_blank, is_token_char, begins_with, goes_on};

/// Whether the byte is a space, tab, newline, return or page.
pub fn is_blank(byte: u8) -> bool
    ensures { result ≡ is_blank byte }
{
    matches!(byte, b' ' | b'\t' | b'\n' | b'\r' | 0x0c)
}

/// Whether the byte may stand in a token.
pub fn is_token_char(byte: u8) -> bool
    ensures { result ≡ is_token_char byte }
{
    matches!(byte, b'!'..=b'~') && !b"\"'(),;`\\|".contains(&byte)
}

/// How many bytes of a token stand at the front.
pub fn token_len(text: &[u8]) -> usize
    ensures { result ≡ prefix_len is_token_char text.now }
{
    text.iter().take_while(|byte| is_token_char(**byte)).count()
}

/// Whether this byte stands at `at`.
pub fn begins_with(bytes: &[u8], at: usize, byte: u8) -> bool
    requires { at ≤ length bytes.now }
    ensures value { result ≡ begins_with byte (drop at bytes.now) }
    ensures within { IsTrue result → at < length bytes.now }
{
    at < bytes.len() && bytes[at] == byte
}

/// Whether a character of a token stands at `at`.
pub fn goes_on(bytes: &[u8], at: usize) -> bool
    requires { at ≤ length bytes.now }
    ensures { result ≡ goes_on (drop at bytes.now) }
{
    at < bytes.len() && is_token_char(bytes[at])
}
