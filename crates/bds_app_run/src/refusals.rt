//! How it is told why a script isn't loaded, or a word isn't taken.
ghost use Rattle.std.specs.Prelude.{◌≡◌, IfOk};
ghost use Rattle.bds_meaning.specs.Refusals.{name_of, lexer_fault as lexer_fault_of};
ghost use Rattle.bds_host.specs.declared.faults.Fault.TheVariants as fault;
ghost use Rattle.bds_front.specs.declared.front_fault.FrontFault.TheVariants as front;
ghost use Rattle.bds_app_run.specs.Telling.{IsToldAs, IsWordsTold};

use crate::stop::Stop;
use bds_check::{CheckFault, Rule, WordsFault};
use bds_front::FrontFault;
use bds_host::Fault;
use bds_lex::LexFault;
use bds_parse_expr::ParseFault;
use bds_value::{At, ByteText, NoMemory, copy_text};
use std::alloc::Global;

/// The name by which a broken rule is told.
fn name(rule: Rule) -> &'static str
    ensures { result.now ≡ name_of rule }
{
    match rule {
        Rule::UnknownName => "UnknownName",
        Rule::UnknownFunction => "UnknownFunction",
        Rule::UnknownMethod => "UnknownMethod",
        Rule::UnknownOption => "UnknownOption",
        Rule::TwiceDeclared => "TwiceDeclared",
        Rule::TwiceFunction => "TwiceFunction",
        Rule::TwiceOption => "TwiceOption",
        Rule::TwoDeps => "TwoDeps",
        Rule::NoDep => "NoDep",
        Rule::NoCommand => "NoCommand",
        Rule::WrongType => "WrongType",
        Rule::WrongCount => "WrongCount",
        Rule::VoidValue => "VoidValue",
        Rule::OpenLiteral => "OpenLiteral",
        Rule::BadItem => "BadItem",
        Rule::NotPlace => "NotPlace",
        Rule::MutatorValue => "MutatorValue",
        Rule::BreakOutside => "BreakOutside",
        Rule::ReturnOutside => "ReturnOutside",
        Rule::NoReturn => "NoReturn",
        Rule::TooManyParameters => "TooManyParameters",
        Rule::TooManyLocals => "TooManyLocals",
        Rule::DeepType => "DeepType",
        Rule::TwoDefaults => "TwoDefaults",
    }
}

/// How it is told that a node of a file breaks a rule.
fn broken_fault(alloc: Global, path: ByteText, rule: Rule, at: At) -> Result<Fault, NoMemory>
    ensures { IfOk result (λ f. f ≡ fault.Broken path at.line (name_of rule)) }
{
    let rule = ByteText::from_vec(Vec::from_slice(alloc, name(rule).as_bytes())?);
    Ok(Fault::Broken {
        path,
        line: at.line,
        rule,
    })
}

/// How a fault of the lexer is told; want of memory isn't.
fn lexer_fault(path: ByteText, fault: LexFault) -> Option<Fault>
    ensures { result ≡ lexer_fault_of path fault }
{
    match fault {
        LexFault::OpenText(line) => Some(Fault::OpenText(path, line)),
        LexFault::OpenComment(line) => Some(Fault::OpenComment(path, line)),
        LexFault::BadByte(line, byte) => Some(Fault::BadByte(path, line, byte)),
        LexFault::BigNumber(line) => Some(Fault::BigNumber(path, line)),
        LexFault::BadEscape(line, byte) => Some(Fault::BadEscape(path, line, byte)),
        LexFault::NoMemory => None,
    }
}

/// How it is told that a file spells no script.
fn parse_fault(path: ByteText, fault: ParseFault) -> Result<Fault, Stop>
    ensures { IsToldAs (front.Parse path fault) result }
{
    match fault {
        ParseFault::Syntax(line) => Ok(Fault::Syntax(path, line)),
        ParseFault::NoMemory => Err(Stop::NoMemory),
    }
}

/// How it is told that a program isn't accepted.
fn check_fault(alloc: Global, path: ByteText, fault: CheckFault) -> Result<Fault, Stop>
    ensures { IsToldAs (front.Check path fault) result }
{
    match fault {
        CheckFault::Broken { rule, at } => Ok(broken_fault(alloc, path, rule, at)?),
        CheckFault::NoMemory => Err(Stop::NoMemory),
    }
}

/// The fault by which it is told that a script isn't loaded.
pub fn fault_of(alloc: Global, fault: FrontFault) -> Result<Fault, Stop>
    ensures { IsToldAs fault result }
{
    match fault {
        FrontFault::Missing(path) => Ok(Fault::Missing(path)),
        FrontFault::TooLong(path) => Ok(Fault::TooLong(path)),
        FrontFault::Lex(path, fault) => lexer_fault(path, fault).ok_or(Stop::NoMemory),
        FrontFault::Parse(path, fault) => parse_fault(path, fault),
        FrontFault::Check(path, fault) => check_fault(alloc, path, fault),
        FrontFault::IncludeTooDeep(path) => Ok(Fault::IncludeTooDeep(path)),
        FrontFault::Device => Err(Stop::Fault),
        FrontFault::NoMemory => Err(Stop::NoMemory),
    }
}

/// How it is told that a word isn't taken; want of memory isn't.
pub fn words_fault(alloc: Global, path: &ByteText, fault: WordsFault) -> Result<Fault, NoMemory>
    ensures { IsWordsTold path.now fault result }
{
    match fault {
        WordsFault::NoVariable(name) => Ok(Fault::NoVariable(copy_text(alloc, path)?, name)),
        WordsFault::BadValue(name) => Ok(Fault::BadValue(copy_text(alloc, path)?, name)),
        WordsFault::NoMemory => Err(NoMemory),
    }
}
