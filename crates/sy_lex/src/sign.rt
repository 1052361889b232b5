ghost use Rattle.std.specs.Prelude.{◌≡◌};
ghost use Rattle.sy_lex.specs.Signs as signs;
ghost use Rattle.sy_lex.specs.Signs.{sign_text};

/// A sign of the language.
#[derive(Clone, Copy, Debug, PartialEq, Eq)]
pub enum Sign {
    /// `:`
    Colon,
    /// `;`
    Semicolon,
    /// `,`
    Comma,
    /// `.`
    Dot,
    /// `(`
    Open,
    /// `)`
    Close,
    /// `[`
    OpenBracket,
    /// `]`
    CloseBracket,
    /// `{`
    OpenBrace,
    /// `}`
    CloseBrace,
    /// `:=`
    Assign,
    /// `->`
    Arrow,
    /// `=`
    Equal,
    /// `!=`
    NotEqual,
    /// `<`
    Less,
    /// `<=`
    AtMost,
    /// `>`
    Greater,
    /// `>=`
    AtLeast,
    /// `+`
    Plus,
    /// `-`
    Minus,
    /// `*`
    Times,
}

impl Sign {
    /// The sign as it is written.
    pub fn text(self) -> &'static [u8]
        ensures { result.now ≡ sign_text self }
    {
        match self {
            Sign::Colon => b":",
            Sign::Semicolon => b";",
            Sign::Comma => b",",
            Sign::Dot => b".",
            Sign::Open => b"(",
            Sign::Close => b")",
            Sign::OpenBracket => b"[",
            Sign::CloseBracket => b"]",
            Sign::OpenBrace => b"{",
            Sign::CloseBrace => b"}",
            Sign::Assign => b":=",
            Sign::Arrow => b"->",
            Sign::Equal => b"=",
            Sign::NotEqual => b"!=",
            Sign::Less => b"<",
            Sign::AtMost => b"<=",
            Sign::Greater => b">",
            Sign::AtLeast => b">=",
            Sign::Plus => b"+",
            Sign::Minus => b"-",
            Sign::Times => b"*",
        }
    }

    /// The sign of this byte alone.
    fn of_one(byte: u8) -> Option<Sign>
        ensures { result ≡ signs.sign_of_one byte }
    {
        match byte {
            b':' => Some(Sign::Colon),
            b';' => Some(Sign::Semicolon),
            b',' => Some(Sign::Comma),
            b'.' => Some(Sign::Dot),
            b'(' => Some(Sign::Open),
            b')' => Some(Sign::Close),
            b'[' => Some(Sign::OpenBracket),
            b']' => Some(Sign::CloseBracket),
            b'{' => Some(Sign::OpenBrace),
            b'}' => Some(Sign::CloseBrace),
            b'=' => Some(Sign::Equal),
            b'<' => Some(Sign::Less),
            b'>' => Some(Sign::Greater),
            b'+' => Some(Sign::Plus),
            b'-' => Some(Sign::Minus),
            b'*' => Some(Sign::Times),
            _ => None,
        }
    }

    /// The sign of these two bytes.
    fn of_two(first: u8, second: u8) -> Option<Sign>
        ensures { result ≡ signs.sign_of_two first second }
    {
        match (first, second) {
            (b':', b'=') => Some(Sign::Assign),
            (b'-', b'>') => Some(Sign::Arrow),
            (b'!', b'=') => Some(Sign::NotEqual),
            (b'<', b'=') => Some(Sign::AtMost),
            (b'>', b'=') => Some(Sign::AtLeast),
            _ => None,
        }
    }

    /// The longest sign that the bytes begin with, if they begin with one.
    pub fn at(bytes: &[u8]) -> Option<Sign>
        ensures { result ≡ signs.sign_at bytes.now }
    {
        match bytes {
            [first, second, ..] => Sign::of_two(*first, *second).or(Sign::of_one(*first)),
            [first] => Sign::of_one(*first),
            [] => None,
        }
    }
}
