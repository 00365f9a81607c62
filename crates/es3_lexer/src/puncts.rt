//! Punctuators (ES3 7.7).

ghost use Rattle.std.specs.Prelude.{◌≡◌, ◌∷◌, [], codes};
ghost use Rattle.es3_tree.specs.Token.{puncts};
ghost use Rattle.es3_tokens.specs.Tokens.{place_in, entry, is_one_of};
ghost use Rattle.es3_lexer.specs.Tables.{punct_number, punct_numbers};

use crate::spelling::find_in;

/// A punctuator (ES3 7.7), the two that begin with `/` last.
#[derive(Debug, Clone, Copy, PartialEq, Eq)]
pub enum Punct {
    /// `{`
    OpenBrace,
    /// `}`
    CloseBrace,
    /// `(`
    OpenParen,
    /// `)`
    CloseParen,
    /// `[`
    OpenBracket,
    /// `]`
    CloseBracket,
    /// `.`
    Point,
    /// `;`
    Semicolon,
    /// `,`
    Comma,
    /// `<`
    Less,
    /// `>`
    Greater,
    /// `<=`
    LessEq,
    /// `>=`
    GreaterEq,
    /// `==`
    Equal,
    /// `!=`
    NotEqual,
    /// `===`
    Same,
    /// `!==`
    NotSame,
    /// `+`
    Plus,
    /// `-`
    Minus,
    /// `*`
    Star,
    /// `%`
    Percent,
    /// `++`
    Increment,
    /// `--`
    Decrement,
    /// `<<`
    Shl,
    /// `>>`
    Shr,
    /// `>>>`
    Ushr,
    /// `&`
    BitAnd,
    /// `|`
    BitOr,
    /// `^`
    BitXor,
    /// `!`
    Not,
    /// `~`
    BitNot,
    /// `&&`
    And,
    /// `||`
    Or,
    /// `?`
    Question,
    /// `:`
    Colon,
    /// `=`
    Assign,
    /// `+=`
    PlusAssign,
    /// `-=`
    MinusAssign,
    /// `*=`
    StarAssign,
    /// `%=`
    PercentAssign,
    /// `<<=`
    ShlAssign,
    /// `>>=`
    ShrAssign,
    /// `>>>=`
    UshrAssign,
    /// `&=`
    BitAndAssign,
    /// `|=`
    BitOrAssign,
    /// `^=`
    BitXorAssign,
    /// `/`
    Slash,
    /// `/=`
    SlashAssign,
}

static PUNCTS: [(&str, Punct); 48] = [
    ("{", Punct::OpenBrace),
    ("}", Punct::CloseBrace),
    ("(", Punct::OpenParen),
    (")", Punct::CloseParen),
    ("[", Punct::OpenBracket),
    ("]", Punct::CloseBracket),
    (".", Punct::Point),
    (";", Punct::Semicolon),
    (",", Punct::Comma),
    ("<", Punct::Less),
    (">", Punct::Greater),
    ("<=", Punct::LessEq),
    (">=", Punct::GreaterEq),
    ("==", Punct::Equal),
    ("!=", Punct::NotEqual),
    ("===", Punct::Same),
    ("!==", Punct::NotSame),
    ("+", Punct::Plus),
    ("-", Punct::Minus),
    ("*", Punct::Star),
    ("%", Punct::Percent),
    ("++", Punct::Increment),
    ("--", Punct::Decrement),
    ("<<", Punct::Shl),
    (">>", Punct::Shr),
    (">>>", Punct::Ushr),
    ("&", Punct::BitAnd),
    ("|", Punct::BitOr),
    ("^", Punct::BitXor),
    ("!", Punct::Not),
    ("~", Punct::BitNot),
    ("&&", Punct::And),
    ("||", Punct::Or),
    ("?", Punct::Question),
    (":", Punct::Colon),
    ("=", Punct::Assign),
    ("+=", Punct::PlusAssign),
    ("-=", Punct::MinusAssign),
    ("*=", Punct::StarAssign),
    ("%=", Punct::PercentAssign),
    ("<<=", Punct::ShlAssign),
    (">>=", Punct::ShrAssign),
    (">>>=", Punct::UshrAssign),
    ("&=", Punct::BitAndAssign),
    ("|=", Punct::BitOrAssign),
    ("^=", Punct::BitXorAssign),
    ("/", Punct::Slash),
    ("/=", Punct::SlashAssign),
];

/// The punctuator that these characters are, if they are one (ES3 7.7).
pub fn punct_of(s: &[char]) -> Option<Punct>
    ensures { punct_numbers result ≡ place_in puncts s.now }
{
    find_in(&PUNCTS, s)
}

impl Punct {
    /// Whether an operand may end with the punctuator, so that a `/` behind it divides (ES3 11.1 to 11.3, 7.8.5).
    pub fn ends_operand(self) -> bool
        ensures { result ≡ is_one_of (entry puncts (punct_number self)) (codes ")" ∷ codes "]" ∷ codes "}" ∷ codes "++" ∷ codes "--" ∷ []) }
    {
        matches!(
            self,
            Punct::CloseParen
                | Punct::CloseBracket
                | Punct::CloseBrace
                | Punct::Increment
                | Punct::Decrement
        )
    }
}
