// Kinds of objects.

ghost use Rattle.std.specs.Prelude.{◌≡◌};
ghost use Rattle.object_layout.specs.Kinds.{kind_number, kind_of, is_type, is_middle, is_coercion, is_target};
ghost use Rattle.object_layout.specs.Kinds.{allows_count};

/// What an object is. The words after its header follow each name.
#[derive(Clone, Copy, PartialEq, Eq)]
pub enum Kind {
    /// A code address, and captured words.
    Closure,
    /// A target, and a coercion that is made of it.
    Proxy,
    /// The address of a type, and the word of a value of that type.
    Dyn,
    /// One to eight parts.
    Tuple,
    /// One word.
    Boxed,
    /// Any number of elements.
    Vector,
    /// A coercion that fails: the number of a label.
    Fail,
    /// A coercion of functions: those of the arguments, then that of the result.
    Fun,
    /// A coercion of tuples: those of the parts.
    Tup,
    /// A coercion of boxes: that of reads and that of writes.
    Ref,
    /// A coercion of vectors: that of reads and that of writes.
    Vec,
    /// A coercion into Dyn: what goes before, and the address of a type.
    Inject,
    /// A coercion out of Dyn: the address of a type, the number of a label, and what follows.
    Project,
    /// The type of integers.
    IntType,
    /// The type of truth values.
    BoolType,
    /// The type of `()`.
    UnitType,
    /// The type of any value.
    DynType,
    /// A type of functions: the types of the parameters, then that of the result.
    FunType,
    /// A type of tuples: the types of the parts.
    TupleType,
    /// A type of boxes: the type of what they hold.
    RefType,
    /// A type of vectors: the type of their elements.
    VecType,
}

/// What a word after a header has to be.
#[derive(Clone, Copy, PartialEq, Eq)]
pub enum Wanted {
    /// Any word.
    Anything,
    /// The address of an object that a proxy may stand on.
    Target,
    /// The address of the coercion of a proxy.
    Middle,
    /// The address of a coercion, or 0 for the one that changes nothing.
    Coercion,
    /// The address of a type.
    TypeAddress,
}

impl Kind {
    /// The number of the kind, as a header has it.
    pub fn number(self) -> u8
        ensures { result ≡ kind_number self }
    {
        match self {
            Kind::Closure => 1,
            Kind::Proxy => 2,
            Kind::Dyn => 3,
            Kind::Tuple => 4,
            Kind::Boxed => 5,
            Kind::Vector => 6,
            Kind::Fail => 8,
            Kind::Fun => 9,
            Kind::Tup => 10,
            Kind::Ref => 11,
            Kind::Vec => 12,
            Kind::Inject => 13,
            Kind::Project => 14,
            Kind::IntType => 16,
            Kind::BoolType => 17,
            Kind::UnitType => 18,
            Kind::DynType => 19,
            Kind::FunType => 20,
            Kind::TupleType => 21,
            Kind::RefType => 22,
            Kind::VecType => 23,
        }
    }

    /// The number of the kind as a word, which is the header of no height and no words.
    pub fn word(self) -> u64
        ensures { result ≡ kind_number self }
    {
        u64::from(self.number())
    }

    /// The kind of this number, if there is one.
    pub fn from_number(number: u8) -> Option<Kind>
        ensures { result ≡ kind_of number }
    {
        match number {
            1 => Some(Kind::Closure),
            2 => Some(Kind::Proxy),
            3 => Some(Kind::Dyn),
            4 => Some(Kind::Tuple),
            5 => Some(Kind::Boxed),
            6 => Some(Kind::Vector),
            8 => Some(Kind::Fail),
            9 => Some(Kind::Fun),
            10 => Some(Kind::Tup),
            11 => Some(Kind::Ref),
            12 => Some(Kind::Vec),
            13 => Some(Kind::Inject),
            14 => Some(Kind::Project),
            16 => Some(Kind::IntType),
            17 => Some(Kind::BoolType),
            18 => Some(Kind::UnitType),
            19 => Some(Kind::DynType),
            20 => Some(Kind::FunType),
            21 => Some(Kind::TupleType),
            22 => Some(Kind::RefType),
            23 => Some(Kind::VecType),
            _ => None,
        }
    }

    /// Whether it is the kind of a type; types are no whole objects in a region.
    pub fn is_type(self) -> bool
        ensures { result ≡ is_type self }
    {
        matches!(
            self,
            Kind::IntType
                | Kind::BoolType
                | Kind::UnitType
                | Kind::DynType
                | Kind::FunType
                | Kind::TupleType
                | Kind::RefType
                | Kind::VecType
        )
    }

    /// Whether it is the kind of a coercion that has a function, a tuple, a box or a vector on both sides.
    pub fn is_middle(self) -> bool
        ensures { result ≡ is_middle self }
    {
        matches!(self, Kind::Fun | Kind::Tup | Kind::Ref | Kind::Vec)
    }

    /// Whether it is the kind of a coercion.
    pub fn is_coercion(self) -> bool
        ensures { result ≡ is_coercion self }
    {
        self.is_middle() || matches!(self, Kind::Fail | Kind::Inject | Kind::Project)
    }

    /// Whether a proxy may stand on an object of this kind.
    pub fn is_target(self) -> bool
        ensures { result ≡ is_target self }
    {
        matches!(
            self,
            Kind::Closure | Kind::Proxy | Kind::Tuple | Kind::Boxed | Kind::Vector
        )
    }

    /// Whether an object of this kind may have so many words after its header.
    pub fn allows_count(self, count: u32) -> bool
        ensures { result ≡ allows_count self count }
    {
        match self {
            Kind::Vector => true,
            Kind::Closure => count >= 1,
            Kind::IntType | Kind::BoolType | Kind::UnitType | Kind::DynType => count == 0,
            Kind::Boxed | Kind::Fail | Kind::RefType | Kind::VecType => count == 1,
            Kind::Proxy | Kind::Dyn | Kind::Ref | Kind::Vec | Kind::Inject => count == 2,
            Kind::Project => count == 3,
            Kind::Fun | Kind::FunType => (1..=7).contains(&count),
            Kind::Tuple | Kind::Tup | Kind::TupleType => (1..=8).contains(&count),
        }
    }
}
