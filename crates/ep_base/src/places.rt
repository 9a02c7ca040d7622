//! Places in a text.

ghost use Rattle.std.specs.Prelude.{◌≡◌, ◌<◌, ◌^◌};
ghost use Rattle.ep_base.specs.Tokens.{place_after};

/// A place in a text, by which a refusal names where it stands.
#[derive(Clone, Copy, Debug, PartialEq, Eq)]
pub struct Place {
    /// One more than the line ends before it.
    pub line: u64,
    /// One more than the bytes since the last line end, or since the start.
    pub column: u64,
}

impl Place {
    /// The place after a byte that stands here.
    pub fn after(self, byte: u8) -> Place
        requires line { self.line < 2 ^ 63 }
        requires column { self.column < 2 ^ 63 }
        ensures { result ≡ place_after self byte }
    {
        if byte == b'\n' {
            Place {
                line: self.line + 1,
                column: 1,
            }
        } else {
            Place {
                line: self.line,
                column: self.column + 1,
            }
        }
    }
}
