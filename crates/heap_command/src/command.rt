//! The commands of a heap script, and the faults that stop one.
ghost use Rattle.std.specs.Prelude.{◌≡◌};
ghost use Rattle.heap_command.specs.Commands.{fault_text};

/// The most slots of its own that a command gives an object, which is the most that an object may have.
pub const CAP_MOST: u32 = 8;

/// What a command is given: an integer, `undefined`, or what a variable is bound to.
#[derive(Clone, Copy, Debug, PartialEq, Eq)]
pub enum Operand {
    Int(i64),
    Undefined,
    Var(u32),
}

/// One command. Variables and field names stand by their numbers.
#[derive(Clone, Copy, Debug, PartialEq, Eq)]
pub enum Command {
    /// Binds `x` to a new plain object with `cap` slots of its own.
    New { x: u32, cap: u32 },
    /// Binds `x` to a new list.
    List { x: u32 },
    /// Binds `x` to a new weak map.
    Weak { x: u32 },
    /// Binds `x` to the value.
    LetValue { x: u32, v: Operand },
    /// Unbinds `x`.
    DropVar { x: u32 },
    /// Binds `x` to the sum of its integer and the value.
    Add { x: u32, v: Operand },
    /// Gives the field `f` of `x` the value.
    Set { x: u32, f: u32, v: Operand },
    /// Binds `y` to the field `f` of `x`, or of the nearest of its first 64 prototypes that has one, else to
    /// `undefined`.
    Get { y: u32, x: u32, f: u32 },
    /// Takes the field `f` out of `x`.
    Del { x: u32, f: u32 },
    /// Gives `x` the value as its prototype, or takes it away where the value is `undefined`.
    Proto { x: u32, v: Operand },
    /// Puts the value last in the list `x`.
    Push { x: u32, v: Operand },
    /// Puts the value in place of element `i` of the list `x`.
    Put { x: u32, i: Operand, v: Operand },
    /// Binds `y` to element `i` of the list `x`.
    At { y: u32, x: u32, i: Operand },
    /// Takes the first `n` elements out of the list `x`.
    Shift { x: u32, n: Operand },
    /// Leaves the first `n` elements in the list `x`.
    Trunc { x: u32, n: Operand },
    /// Gives the key `k` of the weak map `m` the value.
    WPut { m: u32, k: Operand, v: Operand },
    /// Binds `y` to the value of the key `k` in the weak map `m`, or to `undefined`.
    WGet { y: u32, m: u32, k: Operand },
    /// Takes the entry of the key `k` out of the weak map `m`.
    WDel { m: u32, k: Operand },
    /// Writes the value.
    Print { v: Operand },
    /// Writes whether the two values are the same.
    Same { a: Operand, b: Operand },
    /// Writes whether two plain objects have the same cap and the same fields, but for the values.
    Alike { x: u32, y: u32 },
    /// Writes the cap and the fields of a plain object, but for the values.
    Shape { x: u32 },
    /// Collects the young objects.
    Scavenge,
    /// Begins a cycle of marking.
    Mark,
    /// Ends a cycle of marking.
    Finish,
    /// Collects all objects.
    Gc,
    /// Writes how many objects can be reached, and how many entries of weak maps.
    Census,
}

/// Why a command cannot be carried out.
#[derive(Clone, Copy, Debug, PartialEq, Eq)]
pub enum FaultWord {
    /// A variable that the command reads is bound to nothing.
    Unbound = 1,
    /// A plain object is needed.
    NotObject,
    /// A list is needed.
    NotList,
    /// A weak map is needed.
    NotWeak,
    /// An integer is needed.
    NotInt,
    /// The key of an entry has to be an object.
    BadKey,
    /// An index or a count is out of range.
    Range,
    /// The sum is outside 64 bits.
    Overflow,
    /// The object has as many fields as it may have.
    FieldsFull,
    /// The list has as many elements as it may have.
    ListFull,
    /// The weak map has as many entries as it may have.
    WeakFull,
    /// There are as many field paths as there may be.
    ShapesFull,
    /// The object would be its own prototype, or one of its prototypes' prototypes.
    Ring,
}

impl FaultWord {
    /// The word as a fault line writes it.
    pub fn text(self) -> &'static str
        ensures { result.now ≡ fault_text self }
    {
        match self {
            FaultWord::Unbound => "unbound",
            FaultWord::NotObject => "notobject",
            FaultWord::NotList => "notlist",
            FaultWord::NotWeak => "notweak",
            FaultWord::NotInt => "notint",
            FaultWord::BadKey => "badkey",
            FaultWord::Range => "range",
            FaultWord::Overflow => "overflow",
            FaultWord::FieldsFull => "fieldsfull",
            FaultWord::ListFull => "listfull",
            FaultWord::WeakFull => "weakfull",
            FaultWord::ShapesFull => "shapesfull",
            FaultWord::Ring => "ring",
        }
    }
}
