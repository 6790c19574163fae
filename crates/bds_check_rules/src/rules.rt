//! The rules of the checker by name, and its faults.
use bds_value::{At, NoMemory};

/// A rule of the checker, in the order in which a node's broken rules count.
#[derive(Clone, Copy, Debug, PartialEq, Eq)]
pub enum Rule {
    /// A variable that isn't in force.
    UnknownName,
    UnknownFunction,
    /// No method of the receiver has the name and the number of arguments.
    UnknownMethod,
    /// An option of another name, or a condition in a `dep`.
    UnknownOption,
    /// A second variable of the name in the same block.
    TwiceDeclared,
    TwiceFunction,
    TwiceOption,
    /// A second dependency.
    TwoDeps,
    /// A `dep` without a dependency.
    NoDep,
    /// A body without `sys`.
    NoCommand,
    WrongType,
    /// Another number of arguments than the function has parameters.
    WrongCount,
    /// A call or an act without a value where one is needed.
    VoidValue,
    /// An empty literal of which nothing tells the type.
    OpenLiteral,
    /// `[ ]` behind something that isn't a list, or `{ }` behind what isn't a map.
    BadItem,
    /// A change of something that isn't a place.
    NotPlace,
    /// A change that isn't a whole statement.
    MutatorValue,
    BreakOutside,
    ReturnOutside,
    /// A function with a result whose body may end without a `return`.
    NoReturn,
    TooManyParameters,
    TooManyLocals,
    /// An expression whose type nests too deep.
    DeepType,
    /// A second `default` in one `switch`.
    TwoDefaults,
}

/// Why a script isn't checked.
#[derive(Clone, Copy, Debug, PartialEq, Eq)]
pub enum CheckFault {
    /// The first node of the walk that breaks a rule stands there, and this is its least rule.
    Broken { rule: Rule, at: At },
    NoMemory,
}

impl From<NoMemory> for CheckFault {
    ghost use Rattle.std.specs.Prelude.{◌≡◌};
    ghost use Rattle.bds_check_rules.specs.declared.rules.CheckFault.TheVariants.{NoMemory};

    ghost from_gives = { λ _ e. e ≡ NoMemory };

    fn from(_fault: NoMemory) -> CheckFault {
        CheckFault::NoMemory
    }
}
