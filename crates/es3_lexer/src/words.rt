//! The words that are no names (ES3 7.5.2, 7.5.3, 7.8.1, 7.8.2).

ghost use Rattle.std.specs.Prelude.{◌≡◌, ◌∷◌, [], codes};
ghost use Rattle.es3_tree.specs.Token.{words};
ghost use Rattle.es3_tokens.specs.Tokens.{place_in, entry, is_one_of};
ghost use Rattle.es3_lexer.specs.Tables.{word_number, word_numbers};

use crate::spelling::find_in;

/// A keyword, or another reserved word, in the order of the sections of ES3.
#[derive(Debug, Clone, Copy, PartialEq, Eq)]
pub enum Word {
    Break,
    Case,
    Catch,
    Continue,
    Default,
    Delete,
    Do,
    Else,
    Finally,
    For,
    Function,
    If,
    In,
    InstanceOf,
    New,
    Return,
    Switch,
    This,
    Throw,
    Try,
    TypeOf,
    Var,
    Void,
    While,
    With,
    Abstract,
    Boolean,
    Byte,
    Char,
    Class,
    Const,
    Debugger,
    Double,
    Enum,
    Export,
    Extends,
    Final,
    Float,
    Goto,
    Implements,
    Import,
    Int,
    Interface,
    Long,
    Native,
    Package,
    Private,
    Protected,
    Public,
    Short,
    Static,
    Super,
    Synchronized,
    Throws,
    Transient,
    Volatile,
    Null,
    True,
    False,
}

static WORDS: [(&str, Word); 59] = [
    ("break", Word::Break),
    ("case", Word::Case),
    ("catch", Word::Catch),
    ("continue", Word::Continue),
    ("default", Word::Default),
    ("delete", Word::Delete),
    ("do", Word::Do),
    ("else", Word::Else),
    ("finally", Word::Finally),
    ("for", Word::For),
    ("function", Word::Function),
    ("if", Word::If),
    ("in", Word::In),
    ("instanceof", Word::InstanceOf),
    ("new", Word::New),
    ("return", Word::Return),
    ("switch", Word::Switch),
    ("this", Word::This),
    ("throw", Word::Throw),
    ("try", Word::Try),
    ("typeof", Word::TypeOf),
    ("var", Word::Var),
    ("void", Word::Void),
    ("while", Word::While),
    ("with", Word::With),
    ("abstract", Word::Abstract),
    ("boolean", Word::Boolean),
    ("byte", Word::Byte),
    ("char", Word::Char),
    ("class", Word::Class),
    ("const", Word::Const),
    ("debugger", Word::Debugger),
    ("double", Word::Double),
    ("enum", Word::Enum),
    ("export", Word::Export),
    ("extends", Word::Extends),
    ("final", Word::Final),
    ("float", Word::Float),
    ("goto", Word::Goto),
    ("implements", Word::Implements),
    ("import", Word::Import),
    ("int", Word::Int),
    ("interface", Word::Interface),
    ("long", Word::Long),
    ("native", Word::Native),
    ("package", Word::Package),
    ("private", Word::Private),
    ("protected", Word::Protected),
    ("public", Word::Public),
    ("short", Word::Short),
    ("static", Word::Static),
    ("super", Word::Super),
    ("synchronized", Word::Synchronized),
    ("throws", Word::Throws),
    ("transient", Word::Transient),
    ("volatile", Word::Volatile),
    ("null", Word::Null),
    ("true", Word::True),
    ("false", Word::False),
];

/// The word that these characters are, if they are one (ES3 7.5.1).
pub fn word_of(s: &[char]) -> Option<Word>
    ensures { word_numbers result ≡ place_in words s.now }
{
    find_in(&WORDS, s)
}

impl Word {
    /// Whether an operand may end with the word, so that a `/` behind it divides (ES3 11.1, 7.8.5).
    pub fn ends_operand(self) -> bool
        ensures { result ≡ is_one_of (entry words (word_number self)) (codes "this" ∷ codes "null" ∷ codes "true" ∷ codes "false" ∷ []) }
    {
        matches!(self, Word::This | Word::Null | Word::True | Word::False)
    }
}
