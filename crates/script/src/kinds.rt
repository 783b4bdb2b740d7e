// The kinds of node: of what sort each is, and which of its fields are children, of which sort.
ghost use Rattle.std.specs.Prelude.{◌≡◌, [], ◌∷◌, true};
ghost use Rattle.script.specs.Kinds.{is_of, want_a, want_b, want_c};
ghost use Rattle.script.specs.Numbered.{kind_number, Decodes};

/// What a node is.
#[derive(Clone, Copy, PartialEq, Eq, Debug)]
pub enum Kind {
    /// A constant: a.
    Constant,
    /// The local a.
    Local,
    /// The global a, of one word.
    Global,
    /// The element b of global a.
    Element,
    /// Sets the local a to b.
    SetLocal,
    /// Sets the global a, of one word, to b.
    SetGlobal,
    /// Sets the element b of global a to c.
    SetElement,
    /// Not a.
    Not,
    /// Prints a.
    Print,
    /// Operands a and b, operator c.
    Binary,
    /// a && b.
    And,
    /// a || b.
    Or,
    /// Calls function a with the list b.
    Call,
    /// The empty list of arguments.
    NoArguments,
    /// The argument a, followed by the list b.
    Argument,
    /// Does nothing.
    Nothing,
    /// a, then b.
    Sequence,
    /// Works out a, for what it does.
    Evaluate,
    /// If a then b, else c.
    If,
    /// While a, b.
    While,
    /// Returns a.
    Return,
}

/// A number that is no kind's.
#[derive(Clone, Copy, PartialEq, Eq, Debug)]
pub struct UnknownKind(pub u8);

impl TryFrom<u8> for Kind {
    type Error = UnknownKind;

    ghost try_from_gives = { Decodes };

    fn try_from(number: u8) -> Result<Self, UnknownKind> {
        match number {
            0 => Ok(Kind::Constant),
            1 => Ok(Kind::Local),
            2 => Ok(Kind::Global),
            3 => Ok(Kind::Element),
            4 => Ok(Kind::SetLocal),
            5 => Ok(Kind::SetGlobal),
            6 => Ok(Kind::SetElement),
            7 => Ok(Kind::Not),
            8 => Ok(Kind::Print),
            9 => Ok(Kind::Binary),
            10 => Ok(Kind::And),
            11 => Ok(Kind::Or),
            12 => Ok(Kind::Call),
            13 => Ok(Kind::NoArguments),
            14 => Ok(Kind::Argument),
            15 => Ok(Kind::Nothing),
            16 => Ok(Kind::Sequence),
            17 => Ok(Kind::Evaluate),
            18 => Ok(Kind::If),
            19 => Ok(Kind::While),
            20 => Ok(Kind::Return),
            _ => Err(UnknownKind(number)),
        }
    }
}

/// How many operators there are: + - * / % == != < >= > <=, numbered from 0.
pub const OPERATORS: usize = 11;

/// What a node is good for.
#[derive(Clone, Copy, PartialEq, Eq, Debug)]
pub enum Sort {
    /// It has a value.
    Expression,
    /// It is a list of a call's arguments.
    Arguments,
    /// It is done.
    Statement,
}

impl Kind {
    /// What nodes of this kind are good for.
    pub(crate) fn sort(self) -> Sort
        ensures { is_of result (kind_number self) ≡ true }
    {
        match self {
            Kind::Constant
            | Kind::Local
            | Kind::Global
            | Kind::Element
            | Kind::SetLocal
            | Kind::SetGlobal
            | Kind::SetElement
            | Kind::Not
            | Kind::Print
            | Kind::Binary
            | Kind::And
            | Kind::Or
            | Kind::Call => Sort::Expression,
            Kind::NoArguments | Kind::Argument => Sort::Arguments,
            Kind::Nothing
            | Kind::Sequence
            | Kind::Evaluate
            | Kind::If
            | Kind::While
            | Kind::Return => Sort::Statement,
        }
    }

    /// The sort of child that each of the three fields holds, where it holds one.
    pub(crate) fn children(self) -> [Option<Sort>; 3]
        ensures { result ≡ want_a (kind_number self) ∷ want_b (kind_number self) ∷ want_c (kind_number self) ∷ [] }
    {
        const EXPRESSION: Option<Sort> = Some(Sort::Expression);
        const ARGUMENTS: Option<Sort> = Some(Sort::Arguments);
        const STATEMENT: Option<Sort> = Some(Sort::Statement);
        match self {
            Kind::Constant | Kind::Local | Kind::Global | Kind::NoArguments | Kind::Nothing => {
                [None, None, None]
            }
            Kind::Element | Kind::SetLocal | Kind::SetGlobal => [None, EXPRESSION, None],
            Kind::SetElement => [None, EXPRESSION, EXPRESSION],
            Kind::Not | Kind::Print | Kind::Evaluate | Kind::Return => [EXPRESSION, None, None],
            Kind::Binary | Kind::And | Kind::Or => [EXPRESSION, EXPRESSION, None],
            Kind::Call => [None, ARGUMENTS, None],
            Kind::Argument => [EXPRESSION, ARGUMENTS, None],
            Kind::Sequence => [STATEMENT, STATEMENT, None],
            Kind::If => [EXPRESSION, STATEMENT, STATEMENT],
            Kind::While => [EXPRESSION, STATEMENT, None],
        }
    }
}
