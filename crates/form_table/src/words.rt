// The words that have a meaning in a source: one table of the reserved words, one of the operators, one of the types.

ghost use Rattle.std.specs.Prelude.{◌≡◌};
ghost use Rattle.form_table.specs.Words.{operator_text, operand_count, first_with, mark_of, is_arrow_word};

use grift_base::operators::PrimOp;

/// A word that no name can be.
#[derive(Clone, Copy, PartialEq, Eq)]
pub enum Word {
    Lambda,
    Let,
    Letrec,
    If,
    Begin,
    And,
    Or,
    Repeat,
    Tuple,
    TupleProj,
    Define,
    Colon,
    Arrow,
    /// An operator that heads a form with its operands.
    Operator(PrimOp),
}

/// A word of types. Names may be such words too.
#[derive(Clone, Copy, PartialEq, Eq)]
pub enum TypeWord {
    Int,
    Bool,
    Unit,
    Dyn,
    Tuple,
    Ref,
    Vect,
    Rec,
}

/// What the bytes of a symbol are.
#[derive(Clone, Copy, PartialEq, Eq)]
pub enum Mark {
    /// A reserved word.
    Reserved(Word),
    /// A name, and the word of types that it is, if it is one.
    Free(Option<TypeWord>),
}

/// The reserved words.
pub const RESERVED_WORDS: [Word; 34] = [
    Word::Lambda,
    Word::Let,
    Word::Letrec,
    Word::If,
    Word::Begin,
    Word::And,
    Word::Or,
    Word::Repeat,
    Word::Tuple,
    Word::TupleProj,
    Word::Define,
    Word::Colon,
    Word::Arrow,
    Word::Operator(PrimOp::Add),
    Word::Operator(PrimOp::Sub),
    Word::Operator(PrimOp::Mul),
    Word::Operator(PrimOp::Quot),
    Word::Operator(PrimOp::Rem),
    Word::Operator(PrimOp::Lt),
    Word::Operator(PrimOp::Le),
    Word::Operator(PrimOp::Eq),
    Word::Operator(PrimOp::Ge),
    Word::Operator(PrimOp::Gt),
    Word::Operator(PrimOp::Not),
    Word::Operator(PrimOp::PrintInt),
    Word::Operator(PrimOp::Newline),
    Word::Operator(PrimOp::ReadInt),
    Word::Operator(PrimOp::MakeBox),
    Word::Operator(PrimOp::Unbox),
    Word::Operator(PrimOp::BoxSet),
    Word::Operator(PrimOp::MakeVector),
    Word::Operator(PrimOp::VectorRef),
    Word::Operator(PrimOp::VectorSet),
    Word::Operator(PrimOp::VectorLength),
];

/// The words of types.
pub const TYPE_WORDS: [TypeWord; 8] = [
    TypeWord::Int,
    TypeWord::Bool,
    TypeWord::Unit,
    TypeWord::Dyn,
    TypeWord::Tuple,
    TypeWord::Ref,
    TypeWord::Vect,
    TypeWord::Rec,
];

/// The text of an operator in a source.
pub fn operator_text(operator: PrimOp) -> &'static str
    ensures { result.now ≡ operator_text operator }
{
    match operator {
        PrimOp::Add => "+",
        PrimOp::Sub => "-",
        PrimOp::Mul => "*",
        PrimOp::Quot => "%/",
        PrimOp::Rem => "%%",
        PrimOp::Lt => "<",
        PrimOp::Le => "<=",
        PrimOp::Eq => "=",
        PrimOp::Ge => ">=",
        PrimOp::Gt => ">",
        PrimOp::Not => "not",
        PrimOp::PrintInt => "print-int",
        PrimOp::Newline => "newline",
        PrimOp::ReadInt => "read-int",
        PrimOp::MakeBox => "box",
        PrimOp::Unbox => "unbox",
        PrimOp::BoxSet => "box-set!",
        PrimOp::MakeVector => "make-vector",
        PrimOp::VectorRef => "vector-ref",
        PrimOp::VectorSet => "vector-set!",
        PrimOp::VectorLength => "vector-length",
    }
}

/// How many operands an operator has.
pub fn operand_count(operator: PrimOp) -> u64
    ensures { result ≡ operand_count operator }
{
    match operator {
        PrimOp::Newline | PrimOp::ReadInt => 0,
        PrimOp::Not | PrimOp::PrintInt => 1,
        PrimOp::MakeBox | PrimOp::Unbox | PrimOp::VectorLength => 1,
        PrimOp::VectorSet => 3,
        PrimOp::Add | PrimOp::Sub | PrimOp::Mul | PrimOp::Quot | PrimOp::Rem => 2,
        PrimOp::Lt | PrimOp::Le | PrimOp::Eq | PrimOp::Ge | PrimOp::Gt => 2,
        PrimOp::BoxSet | PrimOp::MakeVector | PrimOp::VectorRef => 2,
    }
}

impl Word {
    /// Whether this is `->`.
    pub fn is_arrow(self) -> bool
        ensures { result ≡ is_arrow_word self }
    {
        matches!(self, Word::Arrow)
    }
}

/// Words with a text each.
trait Spelled: Copy {
    ghost use Rattle.std.specs.Prelude.{◌≡◌, ℕ, List};

    ghost spelling: { Self → List ℕ };

    // The word as a source writes it.
    fn text(self) -> &'static str
        ensures { result.now ≡ spelling self };
}

impl Spelled for Word {
    ghost use Rattle.form_table.specs.Words.{word_text};

    ghost spelling = { word_text };

    fn text(self) -> &'static str {
        match self {
            Word::Lambda => "lambda",
            Word::Let => "let",
            Word::Letrec => "letrec",
            Word::If => "if",
            Word::Begin => "begin",
            Word::And => "and",
            Word::Or => "or",
            Word::Repeat => "repeat",
            Word::Tuple => "tuple",
            Word::TupleProj => "tuple-proj",
            Word::Define => "define",
            Word::Colon => ":",
            Word::Arrow => "->",
            Word::Operator(operator) => operator_text(operator),
        }
    }
}

impl Spelled for TypeWord {
    ghost use Rattle.form_table.specs.Words.{type_word_text};

    ghost spelling = { type_word_text };

    fn text(self) -> &'static str {
        match self {
            TypeWord::Int => "Int",
            TypeWord::Bool => "Bool",
            TypeWord::Unit => "Unit",
            TypeWord::Dyn => "Dyn",
            TypeWord::Tuple => "Tuple",
            TypeWord::Ref => "Ref",
            TypeWord::Vect => "Vect",
            TypeWord::Rec => "Rec",
        }
    }
}

// The first of these words with this text.
fn first_with<W: Spelled>(words: &[W], text: &[u8]) -> Option<W>
    ensures { result ≡ first_with W.spelling text.now words.now }
{
    for word in words {
        if word.text().as_bytes() == text {
            return Some(*word);
        }
    }
    None
}

/// What a symbol with these bytes is.
pub fn mark_of(name: &[u8]) -> Mark
    ensures { result ≡ mark_of name.now }
{
    match first_with(&RESERVED_WORDS, name) {
        Some(word) => Mark::Reserved(word),
        None => Mark::Free(first_with(&TYPE_WORDS, name)),
    }
}
