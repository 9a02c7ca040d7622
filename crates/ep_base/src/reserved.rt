//! Reserved words, and which bytes names are made of.

ghost use Rattle.std.specs.Prelude.{◌≡◌, bytes_eq};
ghost use Rattle.std.specs.List.{list_any};
ghost use Rattle.ep_base.specs.TokenTexts.{begins_name, continues_name, is_word};

/// Whether a byte may begin a name: a letter or an underscore.
pub fn begins_name(byte: u8) -> bool
    ensures { result ≡ begins_name byte }
{
    byte.is_ascii_alphabetic() || byte == b'_'
}

/// Whether a byte may stand further on in a name: a letter, an underscore or a digit.
pub fn continues_name(byte: u8) -> bool
    ensures { result ≡ continues_name byte }
{
    begins_name(byte) || byte.is_ascii_digit()
}

const OF_TWO: [&[u8]; 6] = [b"on", b"be", b"by", b"of", b"in", b"or"];

const OF_THREE: [&[u8]; 6] = [b"int", b"sum", b"and", b"min", b"max", b"gcc"];

const OF_FOUR: [&[u8]; 5] = [b"find", b"such", b"that", b"bool", b"true"];

const OF_FIVE: [&[u8]; 7] = [
    b"given", b"where", b"union", b"toInt", b"toSet", b"table", b"false",
];

const OF_SIX: [&[u8]; 5] = [b"domain", b"matrix", b"forAll", b"exists", b"atmost"];

const OF_SEVEN: [&[u8]; 6] = [
    b"letting", b"indexed", b"flatten", b"product", b"allDiff", b"atleast",
];

const OF_EIGHT: [&[u8]; 2] = [b"language", b"ESSENCE'"];

const OF_NINE: [&[u8]; 4] = [b"branching", b"heuristic", b"intersect", b"factorial"];

const OF_TEN: [&[u8]; 4] = [b"minimising", b"minimizing", b"maximising", b"maximizing"];

/// Whether a text is one of these.
fn is_one_of(words: &[&[u8]], text: &[u8]) -> bool
    ensures { result ≡ list_any (λ word. bytes_eq word.now text.now) words.now }
{
    words.iter().any(|word| *word == text)
}

/// Whether a text is a reserved word or the name of the language.
pub fn is_word(text: &[u8]) -> bool
    ensures { result ≡ is_word text.now }
{
    match text.len() {
        2 => is_one_of(&OF_TWO, text),
        3 => is_one_of(&OF_THREE, text),
        4 => is_one_of(&OF_FOUR, text),
        5 => is_one_of(&OF_FIVE, text),
        6 => is_one_of(&OF_SIX, text),
        7 => is_one_of(&OF_SEVEN, text),
        8 => is_one_of(&OF_EIGHT, text),
        9 => is_one_of(&OF_NINE, text),
        10 => is_one_of(&OF_TEN, text),
        _ => false,
    }
}
