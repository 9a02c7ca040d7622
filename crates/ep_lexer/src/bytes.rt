//! Which bytes names, numbers, blanks and comments are made of.

ghost use Rattle.std.specs.Prelude.{◌≡◌};
ghost use Rattle.std.specs.List.{prefix_len};
ghost use Rattle.std.specs.Char.{is_ascii_digit};
ghost use Rattle.ep_base.specs.TokenTexts.{continues_name};
ghost use Rattle.ep_base.specs.Tokens.{separates, in_comment_after};

use ep_base::continues_name;

/// How many bytes from the first on may stand further on in a name.
pub(crate) fn name_length(bytes: &[u8]) -> usize
    ensures { result ≡ prefix_len continues_name bytes.now }
{
    bytes
        .iter()
        .take_while(|byte| continues_name(**byte))
        .count()
}

/// How many bytes from the first on are digits.
pub(crate) fn number_length(bytes: &[u8]) -> usize
    ensures { result ≡ prefix_len is_ascii_digit bytes.now }
{
    bytes
        .iter()
        .take_while(|byte| byte.is_ascii_digit())
        .count()
}

/// Whether a byte separates tokens, in a comment or not.
pub(crate) fn separates(in_comment: bool, byte: u8) -> bool
    ensures { result ≡ separates in_comment byte }
{
    in_comment || matches!(byte, b' ' | b'\t' | b'\n' | b'\r' | b'$')
}

/// Whether a comment goes on after a byte, in a comment or not.
pub(crate) fn in_comment_after(in_comment: bool, byte: u8) -> bool
    ensures { result ≡ in_comment_after in_comment byte }
{
    (in_comment || byte == b'$') && byte != b'\n'
}
