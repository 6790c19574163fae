//! What a thread is given that has left the machine.
ghost use Rattle.std.specs.Prelude.{◌≡◌, ℕ, List, map, slice_get, IsSome, None, Some, IfOk, OnOk, OnErr};
ghost use Rattle.bds_value.specs.declared.value.Ty.{Ty};
ghost use Rattle.bds_host.specs.declared.asks.Ask.TheVariants as Ask;
ghost use Rattle.bds_code.specs.declared.instr.Instr.TheVariants.{FileStamp};
ghost use Rattle.bds_code.specs.declared.unit.Unit.{Unit as CodeUnit};
ghost use Rattle.bds_code.specs.Row.{answers};
ghost use Rattle.bds_code_frames.specs.declared.thread.Thread.{Thread};
ghost use Rattle.bds_machine.specs.declared.point.Point.{Point};
ghost use Rattle.bds_machine.specs.declared.point.Point.TheVariants as Point;
ghost use Rattle.bds_machine.specs.Carried.{Carries};
ghost use Rattle.bds_machine.specs.Answers.{value_of, point_ty, AwaitsAnswer, IsAnswer, IsGiven, IsLeft};

use crate::calls::receive;
use crate::point::Answer;
use bds_code::Thread;
use bds_value::sharing::list_of;
use bds_value::{Items, Listed, NoMemory, Texts, Ty, Value};
use bds_verify::Verified;
use std::alloc::Global;

fn items_of(alloc: Global, mut texts: Texts) -> Result<Items, NoMemory>
    ensures { IfOk result (λ items. items ≡ map Value.Text texts) }
{
    let count = texts.len();
    let mut items = Vec::with_capacity(alloc, count)?;
    for _ in 0..count {
        match texts.pop() {
            Some(text) => match items.push(Value::Text(text)) {
                Ok(()) => {}
                Err(_) => unreachable!(),
            },
            None => unreachable!(),
        }
    }
    items.reverse();
    Ok(Listed::from_vec(items))
}

fn value_of(alloc: Global, answer: Answer) -> Result<Option<Value>, NoMemory>
    ensures { IfOk result (λ value. value ≡ value_of answer) }
{
    match answer {
        Answer::Nothing => Ok(None),
        Answer::Bool(b) => Ok(Some(Value::Bool(b))),
        Answer::Int(n) => Ok(Some(Value::Int(n))),
        Answer::Text(text) => Ok(Some(Value::Text(text))),
        Answer::Texts(texts) => {
            let items = items_of(alloc, texts)?;
            Ok(Some(list_of(alloc, Ty::Text, items)?))
        }
    }
}

/// Gives a thread what it awaits. A refused call leaves the thread as it was.
pub fn give(
    alloc: Global,
    unit: &Verified,
    thread: &mut Thread,
    answer: Answer,
) -> Result<(), NoMemory>
    requires { (t : Ty) × AwaitsAnswer unit.now thread.old t × IsAnswer (value_of answer) t }
    ensures ok { OnOk result (IsGiven unit.now (value_of answer) thread.old thread.new) }
    ensures err { OnErr result (thread.new ≡ thread.old) }
{
    let value = value_of(alloc, answer)?;
    receive(alloc, &mut thread.frames, value)
}

/// What a thread awaits has the type that its point tells, and each point at which an answer is awaited
/// tells one but that of a stamp. Where a file's stamp is asked for, the instruction behind which the
/// thread stands says what is asked of it, and so the type.
pub fn points_tell_answers()
    ensures told { (u : CodeUnit) → (p : Point) → (t : Thread) → (left : IsLeft u p t) → (type : Ty) → point_ty p ≡ Some type → left.type ≡ type }
    ensures others { (u : CodeUnit) → (p : Point) → (t : Thread) → IsLeft u p t → point_ty p ≡ None → (path : List ℕ) × (p ≡ Point.Asks (Ask.Stamp path)) }
    ensures stamps { (u : CodeUnit) → (path : List ℕ) → (t : Thread) → (left : IsLeft u (Point.Asks (Ask.Stamp path)) t)
        → (question : ℕ) × (left.awaits.instruction ≡ FileStamp question) × (slice_get answers question ≡ Some left.type) }
{}

/// What a point carries at which an answer is awaited: texts and lists within the limits, options
/// within their ranges, and arguments of the types of the function that a thread is to run. A law,
/// which does nothing.
pub fn points_carry_what_fits()
    ensures { (u : CodeUnit) → (p : Point) → (t : Thread) → IsLeft u p t → Carries u p }
{}
