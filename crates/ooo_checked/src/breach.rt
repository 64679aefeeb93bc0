ghost use Rattle.std.specs.Prelude.{◌≡◌};
ghost use Rattle.ooo_checked.specs.Breaches.{name_of, rank_of};

use ooo_lexer::Position;
use std::alloc::AllocError;
use std::error::Error;
use std::fmt;

/// What is wrong with the names and types of a text. Of two breaches at one place the one that stands first here is told.
#[derive(Clone, Copy, Debug)]
pub enum TypeBreach {
    /// A word that denotes nothing where it stands, or that is no call of the thing before its dot.
    UnknownName,
    /// A name that is declared, or a function that is registered, a second time.
    DeclaredTwice,
    /// A word that denotes something that can't stand there.
    WrongKind,
    /// A wait in a function that `SC_METHOD` registers.
    WaitInMethod,
    /// A wait in a function that is called, or that is no process.
    WaitInFunction,
    /// A call by which a function may call itself.
    RecursiveCall,
    /// A binding of what is no port of the instance's module.
    NotAPort,
    /// A call or a declaration with too many arguments or too few.
    WrongCount,
    /// A call inside an expression that does more than give a value.
    EffectInside,
    /// An expression that has to be known before the simulation, and isn't.
    NotConstant,
}

impl TypeBreach {
    /// The breach's name, as refusals write it.
    pub fn name(self) -> &'static str
        ensures { result.now ≡ name_of self }
    {
        match self {
            TypeBreach::UnknownName => "UnknownName",
            TypeBreach::DeclaredTwice => "DeclaredTwice",
            TypeBreach::WrongKind => "WrongKind",
            TypeBreach::WaitInMethod => "WaitInMethod",
            TypeBreach::WaitInFunction => "WaitInFunction",
            TypeBreach::RecursiveCall => "RecursiveCall",
            TypeBreach::NotAPort => "NotAPort",
            TypeBreach::WrongCount => "WrongCount",
            TypeBreach::EffectInside => "EffectInside",
            TypeBreach::NotConstant => "NotConstant",
        }
    }

    /// Its rank among the breaches of one place: the least is told.
    pub fn rank(self) -> u8
        ensures { result ≡ rank_of self }
    {
        match self {
            TypeBreach::UnknownName => 1,
            TypeBreach::DeclaredTwice => 2,
            TypeBreach::WrongKind => 3,
            TypeBreach::WaitInMethod => 4,
            TypeBreach::WaitInFunction => 5,
            TypeBreach::RecursiveCall => 6,
            TypeBreach::NotAPort => 7,
            TypeBreach::WrongCount => 8,
            TypeBreach::EffectInside => 9,
            TypeBreach::NotConstant => 10,
        }
    }
}

/// Writes the breach's name.
impl fmt::Display for TypeBreach {
    ghost use Rattle.std.specs.Prelude.{Some};
    ghost use Rattle.ooo_checked.specs.Breaches.{name_of};

    ghost output = { λ breach. Some (name_of breach) };

    fn fmt<W: fmt::Write>(&self, f: &mut fmt::Formatter<W>) -> fmt::Result {
        f.write_str(self.name())
    }
}

impl Error for TypeBreach {}

/// A breach and the position of the token that meets it.
#[derive(Clone, Copy)]
pub struct Breach {
    pub what: TypeBreach,
    pub at: Position,
}

/// Why a text was not checked.
#[derive(Clone, Copy)]
pub enum TypeError {
    /// The text is refused: what is wrong, and where.
    Refused(TypeBreach, Position),
    /// Memory ran out, which says nothing of the text.
    OutOfMemory,
}

impl From<AllocError> for TypeError {
    ghost use Rattle.std.specs.Prelude.{◌≡◌};
    ghost use Rattle.ooo_checked.specs.declared.breach.TypeError.TheVariants.{OutOfMemory};

    ghost from_gives = { λ _ e. e ≡ OutOfMemory };

    fn from(_error: AllocError) -> TypeError {
        TypeError::OutOfMemory
    }
}
