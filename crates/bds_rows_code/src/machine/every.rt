//! A unit in which each instruction stands, run from point to point to its ends.
ghost use Rattle.std.specs.Prelude.{◌≡◌, true, IfOk, OnOk, Some, [], ◌∷◌};
ghost use Rattle.bds_value.specs.declared.ids.Status.TheVariants.{Ready};
ghost use Rattle.bds_verify.specs.Threads.{IsThread};
ghost use Rattle.bds_machine.specs.Answers.{FitsPoint};
ghost use Rattle.bds_machine.specs.declared.point.Answer.{Answer as AnswerOf};

use bds_code::{Thread, read_unit};
use bds_host::{Ask, RunFault};
use bds_machine::{Answer, Point, give, run_to_point};
use bds_state_threads::first_thread;
use bds_value::{ByteText, Input, Listed, NoMemory, Texts, put};
use bds_verify::{Verified, verify};
use std::alloc::Global;
use std::process::Abort;
use std::test::Fail;

/// Function 0: PushInt 7, PushInt 3, Add, PushInt 4, Sub, PushInt 5, Mul, PushInt 4, Div,
/// PushInt 4, Rem, Neg, Store 0, Load 0, StoreGlobal 0, LoadGlobal 0, Show, PushText "x", Blank,
/// Concat, Out, PushInt 1, PushInt 2, Equal, Not, Show, PushInt 1, PushInt 2, NotEqual, Show,
/// Concat, PushInt 1, PushInt 2, Less, Show, Concat, PushInt 1, PushInt 2, LessEqual, Show,
/// Concat, PushInt 1, PushInt 2, Greater, Show, Concat, PushInt 1, PushInt 2, GreaterEqual,
/// Show, Concat, Out, PushDefault list of int, PushInt 5, ListAdd, PushInt 6, PushInt 7,
/// MakeList int 2, ListCat, Store 1, PushInt 1, PushInt 30, Update slot 1, index, 1, Load 1,
/// PushInt 1, Item, Show, PushText "k", PushInt 4, MakeMap int 1, PushText "k", Key, Show,
/// Concat, Load 1, Method 17, Show, Concat, Out, PushInt 0, Store 0, Tick, Load 0, PushInt 3,
/// Less, JumpUnless 91, Load 0, PushInt 1, Add, Store 0, Jump 81, Load 0, Show, PushBool 1,
/// Drop, Out, PushInt 50, PushInt 8, Call 1, Show, Out, PushText "p", FileRead, Out, PushText
/// "p", PushText "t", FileWrite, PushText "p", FileRemove, PushText "o", MakeList text 1,
/// PushText "i", MakeList text 1, OutOfDate, Show, Out, PushText "o", MakeList text 1, PushText
/// "i", MakeList text 1, PushInt 2, PushBool 1, PushInt 3, PushText "n", PushText "c", NewTask,
/// Out, PushText "o", MakeList text 1, PushText "i", MakeList text 1, PushInt 2, PushBool 1,
/// PushInt 3, PushText "n", PushText "c", Declare, PushText "g", MakeList text 1, Goal, PushText
/// "+", Method 20, Out, PushInt 1, PushInt 2, Spawn 1, Out, PushText "t", PushText "s", MakeList
/// text 2, Wait, WaitAll, PushText "p", Save, SaveHere, PushText "c", Sys, Store 2, Load 2,
/// PushText "s", Equal, JumpUnless 164, PushText "bad", Stop, Load 2, PushText "e", Equal,
/// JumpUnless 170, PushInt -1, Exit, Load 2, PushText "f", Equal, JumpUnless 177, PushText "p",
/// FileStamp 2, Drop, Return; function 1 of two numbers: Load 0, Load 1, Sub, Return.
const UNIT: &[u8] = &[
    0, 0, 0, 1, 0, 0, 0, 1, 104, 0, 0, 0, 1, 1, 0, 0, 0, 2, 0, 0, 0, 0, 0, 0, 0, 0, 0, 0, 0, 3, 1,
    3, 1, 2, 5, 0, 0, 0, 178, 1, 0, 0, 0, 0, 0, 0, 0, 7, 1, 0, 0, 0, 0, 0, 0, 0, 3, 9, 1, 0, 0, 0,
    0, 0, 0, 0, 4, 10, 1, 0, 0, 0, 0, 0, 0, 0, 5, 11, 1, 0, 0, 0, 0, 0, 0, 0, 4, 12, 1, 0, 0, 0, 0,
    0, 0, 0, 4, 13, 14, 5, 0, 0, 4, 0, 0, 7, 0, 0, 6, 0, 0, 16, 2, 0, 0, 0, 1, 120, 17, 18, 42, 1,
    0, 0, 0, 0, 0, 0, 0, 1, 1, 0, 0, 0, 0, 0, 0, 0, 2, 21, 15, 16, 1, 0, 0, 0, 0, 0, 0, 0, 1, 1, 0,
    0, 0, 0, 0, 0, 0, 2, 22, 16, 18, 1, 0, 0, 0, 0, 0, 0, 0, 1, 1, 0, 0, 0, 0, 0, 0, 0, 2, 23, 16,
    18, 1, 0, 0, 0, 0, 0, 0, 0, 1, 1, 0, 0, 0, 0, 0, 0, 0, 2, 24, 16, 18, 1, 0, 0, 0, 0, 0, 0, 0,
    1, 1, 0, 0, 0, 0, 0, 0, 0, 2, 25, 16, 18, 1, 0, 0, 0, 0, 0, 0, 0, 1, 1, 0, 0, 0, 0, 0, 0, 0, 2,
    26, 16, 18, 42, 3, 3, 1, 1, 0, 0, 0, 0, 0, 0, 0, 5, 19, 1, 0, 0, 0, 0, 0, 0, 0, 6, 1, 0, 0, 0,
    0, 0, 0, 0, 7, 27, 1, 0, 0, 0, 2, 20, 5, 0, 1, 1, 0, 0, 0, 0, 0, 0, 0, 1, 1, 0, 0, 0, 0, 0, 0,
    0, 30, 31, 0, 0, 1, 0, 0, 0, 1, 0, 1, 4, 0, 1, 1, 0, 0, 0, 0, 0, 0, 0, 1, 29, 16, 2, 0, 0, 0,
    1, 107, 1, 0, 0, 0, 0, 0, 0, 0, 4, 28, 1, 0, 0, 0, 1, 2, 0, 0, 0, 1, 107, 30, 16, 18, 4, 0, 1,
    37, 17, 16, 18, 42, 1, 0, 0, 0, 0, 0, 0, 0, 0, 5, 0, 0, 34, 4, 0, 0, 1, 0, 0, 0, 0, 0, 0, 0, 3,
    23, 33, 0, 0, 0, 91, 4, 0, 0, 1, 0, 0, 0, 0, 0, 0, 0, 1, 9, 5, 0, 0, 32, 0, 0, 0, 81, 4, 0, 0,
    16, 0, 1, 8, 42, 1, 0, 0, 0, 0, 0, 0, 0, 50, 1, 0, 0, 0, 0, 0, 0, 0, 8, 35, 0, 0, 0, 1, 16, 42,
    2, 0, 0, 0, 1, 112, 38, 42, 2, 0, 0, 0, 1, 112, 2, 0, 0, 0, 1, 116, 39, 2, 0, 0, 0, 1, 112, 40,
    2, 0, 0, 0, 1, 111, 27, 2, 0, 0, 0, 1, 2, 0, 0, 0, 1, 105, 27, 2, 0, 0, 0, 1, 46, 16, 42, 2, 0,
    0, 0, 1, 111, 27, 2, 0, 0, 0, 1, 2, 0, 0, 0, 1, 105, 27, 2, 0, 0, 0, 1, 1, 0, 0, 0, 0, 0, 0, 0,
    2, 0, 1, 1, 0, 0, 0, 0, 0, 0, 0, 3, 2, 0, 0, 0, 1, 110, 2, 0, 0, 0, 1, 99, 47, 42, 2, 0, 0, 0,
    1, 111, 27, 2, 0, 0, 0, 1, 2, 0, 0, 0, 1, 105, 27, 2, 0, 0, 0, 1, 1, 0, 0, 0, 0, 0, 0, 0, 2, 0,
    1, 1, 0, 0, 0, 0, 0, 0, 0, 3, 2, 0, 0, 0, 1, 110, 2, 0, 0, 0, 1, 99, 48, 2, 0, 0, 0, 1, 103,
    27, 2, 0, 0, 0, 1, 49, 2, 0, 0, 0, 1, 43, 37, 20, 42, 1, 0, 0, 0, 0, 0, 0, 0, 1, 1, 0, 0, 0, 0,
    0, 0, 0, 2, 50, 0, 0, 0, 1, 42, 2, 0, 0, 0, 1, 116, 2, 0, 0, 0, 1, 115, 27, 2, 0, 0, 0, 2, 51,
    52, 2, 0, 0, 0, 1, 112, 53, 54, 2, 0, 0, 0, 1, 99, 45, 5, 0, 2, 4, 0, 2, 2, 0, 0, 0, 1, 115,
    21, 33, 0, 0, 0, 164, 2, 0, 0, 0, 3, 98, 97, 100, 43, 4, 0, 2, 2, 0, 0, 0, 1, 101, 21, 33, 0,
    0, 0, 170, 1, 255, 255, 255, 255, 255, 255, 255, 255, 44, 4, 0, 2, 2, 0, 0, 0, 1, 102, 21, 33,
    0, 0, 0, 177, 2, 0, 0, 0, 1, 112, 41, 2, 8, 36, 0, 0, 0, 5, 0, 0, 0, 81, 0, 0, 0, 0, 0, 0, 0,
    91, 0, 0, 0, 0, 0, 0, 0, 164, 0, 0, 0, 0, 0, 0, 0, 170, 0, 0, 0, 0, 0, 0, 0, 177, 0, 0, 0, 0,
    0, 0, 0, 0, 0, 0, 0, 1, 0, 0, 0, 0, 0, 0, 0, 2, 0, 0, 0, 0, 0, 0, 0, 3, 0, 0, 0, 0, 0, 0, 0, 4,
    0, 0, 0, 0, 0, 0, 0, 5, 0, 0, 0, 0, 0, 0, 0, 6, 0, 0, 0, 0, 0, 0, 0, 7, 0, 0, 0, 0, 0, 0, 0, 8,
    0, 0, 0, 0, 0, 0, 0, 9, 0, 0, 0, 0, 0, 0, 0, 10, 0, 0, 0, 0, 0, 0, 0, 11, 0, 0, 0, 0, 0, 0, 0,
    12, 0, 0, 0, 0, 0, 0, 0, 13, 0, 0, 0, 0, 0, 0, 0, 14, 0, 0, 0, 0, 0, 0, 0, 15, 0, 0, 0, 0, 0,
    0, 0, 16, 0, 0, 0, 0, 0, 0, 0, 17, 0, 0, 0, 0, 0, 0, 0, 18, 0, 0, 0, 0, 0, 0, 0, 19, 0, 0, 0,
    0, 0, 0, 0, 20, 0, 0, 0, 0, 0, 0, 0, 21, 0, 0, 0, 0, 0, 0, 0, 22, 0, 0, 0, 0, 0, 0, 0, 23, 0,
    0, 0, 0, 0, 0, 0, 24, 0, 0, 0, 0, 0, 0, 0, 25, 0, 0, 0, 0, 0, 0, 0, 26, 0, 0, 0, 0, 0, 0, 0,
    27, 0, 0, 0, 0, 0, 0, 0, 28, 0, 0, 0, 0, 0, 0, 0, 29, 0, 0, 0, 0, 0, 0, 0, 30, 0, 0, 0, 0, 0,
    0, 0, 31, 0, 0, 0, 0, 0, 0, 0, 32, 0, 0, 0, 0, 0, 0, 0, 33, 0, 0, 0, 0, 0, 0, 0, 34, 0, 0, 0,
    0, 0, 0, 0, 35, 0, 0, 0, 0, 0, 0, 0, 36, 0, 0, 0, 0, 0, 0, 0, 37, 0, 0, 0, 0, 0, 0, 0, 38, 0,
    0, 0, 0, 0, 0, 0, 39, 0, 0, 0, 0, 0, 0, 0, 40, 0, 0, 0, 0, 0, 0, 0, 41, 0, 0, 0, 0, 0, 0, 0,
    42, 0, 0, 0, 0, 0, 0, 0, 43, 0, 0, 0, 0, 0, 0, 0, 44, 0, 0, 0, 0, 0, 0, 0, 45, 0, 0, 0, 0, 0,
    0, 0, 46, 0, 0, 0, 0, 0, 0, 0, 47, 0, 0, 0, 0, 0, 0, 0, 48, 0, 0, 0, 0, 0, 0, 0, 49, 0, 0, 0,
    0, 0, 0, 0, 50, 0, 0, 0, 0, 0, 0, 0, 51, 0, 0, 0, 0, 0, 0, 0, 52, 0, 0, 0, 0, 0, 0, 0, 53, 0,
    0, 0, 0, 0, 0, 0, 54, 0, 0, 0, 0, 0, 0, 0, 55, 0, 0, 0, 0, 0, 0, 0, 56, 0, 0, 0, 0, 0, 0, 0,
    57, 0, 0, 0, 0, 0, 0, 0, 58, 0, 0, 0, 0, 0, 0, 0, 59, 0, 0, 0, 0, 0, 0, 0, 60, 0, 0, 0, 0, 0,
    0, 0, 61, 0, 0, 0, 0, 0, 0, 0, 62, 0, 0, 0, 0, 0, 0, 0, 63, 0, 0, 0, 0, 0, 0, 0, 64, 0, 0, 0,
    0, 0, 0, 0, 65, 0, 0, 0, 0, 0, 0, 0, 66, 0, 0, 0, 0, 0, 0, 0, 67, 0, 0, 0, 0, 0, 0, 0, 68, 0,
    0, 0, 0, 0, 0, 0, 69, 0, 0, 0, 0, 0, 0, 0, 70, 0, 0, 0, 0, 0, 0, 0, 71, 0, 0, 0, 0, 0, 0, 0,
    72, 0, 0, 0, 0, 0, 0, 0, 73, 0, 0, 0, 0, 0, 0, 0, 74, 0, 0, 0, 0, 0, 0, 0, 75, 0, 0, 0, 0, 0,
    0, 0, 76, 0, 0, 0, 0, 0, 0, 0, 77, 0, 0, 0, 0, 0, 0, 0, 78, 0, 0, 0, 0, 0, 0, 0, 79, 0, 0, 0,
    0, 0, 0, 0, 80, 0, 0, 0, 0, 0, 0, 0, 81, 0, 0, 0, 0, 0, 0, 0, 82, 0, 0, 0, 0, 0, 0, 0, 83, 0,
    0, 0, 0, 0, 0, 0, 84, 0, 0, 0, 0, 0, 0, 0, 85, 0, 0, 0, 0, 0, 0, 0, 86, 0, 0, 0, 0, 0, 0, 0,
    87, 0, 0, 0, 0, 0, 0, 0, 88, 0, 0, 0, 0, 0, 0, 0, 89, 0, 0, 0, 0, 0, 0, 0, 90, 0, 0, 0, 0, 0,
    0, 0, 91, 0, 0, 0, 0, 0, 0, 0, 92, 0, 0, 0, 0, 0, 0, 0, 93, 0, 0, 0, 0, 0, 0, 0, 94, 0, 0, 0,
    0, 0, 0, 0, 95, 0, 0, 0, 0, 0, 0, 0, 96, 0, 0, 0, 0, 0, 0, 0, 97, 0, 0, 0, 0, 0, 0, 0, 98, 0,
    0, 0, 0, 0, 0, 0, 99, 0, 0, 0, 0, 0, 0, 0, 100, 0, 0, 0, 0, 0, 0, 0, 101, 0, 0, 0, 0, 0, 0, 0,
    102, 0, 0, 0, 0, 0, 0, 0, 103, 0, 0, 0, 0, 0, 0, 0, 104, 0, 0, 0, 0, 0, 0, 0, 105, 0, 0, 0, 0,
    0, 0, 0, 106, 0, 0, 0, 0, 0, 0, 0, 107, 0, 0, 0, 0, 0, 0, 0, 108, 0, 0, 0, 0, 0, 0, 0, 109, 0,
    0, 0, 0, 0, 0, 0, 110, 0, 0, 0, 0, 0, 0, 0, 111, 0, 0, 0, 0, 0, 0, 0, 112, 0, 0, 0, 0, 0, 0, 0,
    113, 0, 0, 0, 0, 0, 0, 0, 114, 0, 0, 0, 0, 0, 0, 0, 115, 0, 0, 0, 0, 0, 0, 0, 116, 0, 0, 0, 0,
    0, 0, 0, 117, 0, 0, 0, 0, 0, 0, 0, 118, 0, 0, 0, 0, 0, 0, 0, 119, 0, 0, 0, 0, 0, 0, 0, 120, 0,
    0, 0, 0, 0, 0, 0, 121, 0, 0, 0, 0, 0, 0, 0, 122, 0, 0, 0, 0, 0, 0, 0, 123, 0, 0, 0, 0, 0, 0, 0,
    124, 0, 0, 0, 0, 0, 0, 0, 125, 0, 0, 0, 0, 0, 0, 0, 126, 0, 0, 0, 0, 0, 0, 0, 127, 0, 0, 0, 0,
    0, 0, 0, 128, 0, 0, 0, 0, 0, 0, 0, 129, 0, 0, 0, 0, 0, 0, 0, 130, 0, 0, 0, 0, 0, 0, 0, 131, 0,
    0, 0, 0, 0, 0, 0, 132, 0, 0, 0, 0, 0, 0, 0, 133, 0, 0, 0, 0, 0, 0, 0, 134, 0, 0, 0, 0, 0, 0, 0,
    135, 0, 0, 0, 0, 0, 0, 0, 136, 0, 0, 0, 0, 0, 0, 0, 137, 0, 0, 0, 0, 0, 0, 0, 138, 0, 0, 0, 0,
    0, 0, 0, 139, 0, 0, 0, 0, 0, 0, 0, 140, 0, 0, 0, 0, 0, 0, 0, 141, 0, 0, 0, 0, 0, 0, 0, 142, 0,
    0, 0, 0, 0, 0, 0, 143, 0, 0, 0, 0, 0, 0, 0, 144, 0, 0, 0, 0, 0, 0, 0, 145, 0, 0, 0, 0, 0, 0, 0,
    146, 0, 0, 0, 0, 0, 0, 0, 147, 0, 0, 0, 0, 0, 0, 0, 148, 0, 0, 0, 0, 0, 0, 0, 149, 0, 0, 0, 0,
    0, 0, 0, 150, 0, 0, 0, 0, 0, 0, 0, 151, 0, 0, 0, 0, 0, 0, 0, 152, 0, 0, 0, 0, 0, 0, 0, 153, 0,
    0, 0, 0, 0, 0, 0, 154, 0, 0, 0, 0, 0, 0, 0, 155, 0, 0, 0, 0, 0, 0, 0, 156, 0, 0, 0, 0, 0, 0, 0,
    157, 0, 0, 0, 0, 0, 0, 0, 158, 0, 0, 0, 0, 0, 0, 0, 159, 0, 0, 0, 0, 0, 0, 0, 160, 0, 0, 0, 0,
    0, 0, 0, 161, 0, 0, 0, 0, 0, 0, 0, 162, 0, 0, 0, 0, 0, 0, 0, 163, 0, 0, 0, 0, 0, 0, 0, 164, 0,
    0, 0, 0, 0, 0, 0, 165, 0, 0, 0, 0, 0, 0, 0, 166, 0, 0, 0, 0, 0, 0, 0, 167, 0, 0, 0, 0, 0, 0, 0,
    168, 0, 0, 0, 0, 0, 0, 0, 169, 0, 0, 0, 0, 0, 0, 0, 170, 0, 0, 0, 0, 0, 0, 0, 171, 0, 0, 0, 0,
    0, 0, 0, 172, 0, 0, 0, 0, 0, 0, 0, 173, 0, 0, 0, 0, 0, 0, 0, 174, 0, 0, 0, 0, 0, 0, 0, 175, 0,
    0, 0, 0, 0, 0, 0, 176, 0, 0, 0, 0, 0, 0, 0, 177, 0, 0, 0, 0, 0, 0, 0, 178, 0, 0, 0, 0, 0, 0, 0,
    2, 1, 1, 0, 0, 0, 0, 1, 0, 0, 0, 4, 4, 0, 0, 4, 0, 1, 10, 36, 0, 0, 0, 0, 0, 0, 0, 0, 0, 0, 0,
    1, 0, 0, 0, 0, 0, 0, 0, 2, 0, 0, 0, 0, 0, 0, 0, 3, 0, 0, 0, 0, 0, 0, 0, 4,
];

/// What each run tells before its last points.
const FIRST: &[u8] = b"out -3x\n\
out truetruetruetruefalsefalse\n\
out 3643\n\
out 3\n\
out 42\n\
read p\n\
out i\n\
write p\n\
text t\n\
remove p\n\
old o\n\
of i\n\
out true\n\
task n\n\
out t\n\
rule c\n\
goal g\n\
out g\n\
spawn\n\
out 2\n\
wait t\n\
wait s\n\
wait all\n\
save p\n\
save here\n\
sys c\n";

/// What Sys answers, and the last point of the run.
const ENDS: [(u8, &[u8]); 4] = [
    (b's', b"error bad\n"),
    (b'e', b"exit 255\n"),
    (b'f', b"stamp p\n"),
    (b'r', b"finished\n"),
];

/// More points than a run comes to.
const POINTS: usize = 40;

fn verified(alloc: Global) -> Result<Verified, Fail> {
    let bytes = Listed::from_vec(Vec::from_slice(alloc, UNIT)?);
    let mut input = Input { bytes, at: 0 };
    let unit = read_unit(alloc, &mut input)?;
    Ok(verify(alloc, unit)?)
}

fn tell_text(out: &mut Vec<u8>, name: &[u8], text: &ByteText) -> Result<(), NoMemory> {
    put(out, name)?;
    put(out, text.as_slice())?;
    put(out, b"\n")
}

fn tell_texts(out: &mut Vec<u8>, name: &[u8], texts: &Texts) -> Result<(), NoMemory> {
    for text in texts.as_slice() {
        tell_text(out, name, text)?;
    }
    Ok(())
}

fn tell_ask(out: &mut Vec<u8>, ask: &Ask) -> Result<(), NoMemory> {
    match ask {
        Ask::Read(path) => tell_text(out, b"read ", path),
        Ask::Write { path, text } => {
            tell_text(out, b"write ", path)?;
            tell_text(out, b"text ", text)
        }
        Ask::Remove(path) => tell_text(out, b"remove ", path),
        Ask::Stamp(path) => tell_text(out, b"stamp ", path),
        Ask::Out(text) => tell_text(out, b"out ", text),
        Ask::Sys(command) => tell_text(out, b"sys ", command),
        _ => put(out, b"another ask\n"),
    }
}

/// Says of a point what it is.
fn tell(out: &mut Vec<u8>, point: &Point) -> Result<(), NoMemory> {
    match point {
        Point::Asks(ask) => tell_ask(out, ask),
        Point::Old(outs, ins) => {
            tell_texts(out, b"old ", outs)?;
            tell_texts(out, b"of ", ins)
        }
        Point::Task(task) => tell_text(out, b"task ", &task.name),
        Point::Declare(rule) => tell_text(out, b"rule ", &rule.command),
        Point::Goal(files) => tell_texts(out, b"goal ", files),
        Point::Spawn(_, _) => put(out, b"spawn\n"),
        Point::Wait(ids) => tell_texts(out, b"wait ", ids),
        Point::WaitAll => put(out, b"wait all\n"),
        Point::Save(Some(path)) => tell_text(out, b"save ", path),
        Point::Save(None) => put(out, b"save here\n"),
        Point::Exit(255) => put(out, b"exit 255\n"),
        Point::Exit(_) => put(out, b"another exit\n"),
        Point::Stop(RunFault::Error(text), _) => tell_text(out, b"error ", text),
        Point::Stop(_, _) => put(out, b"another fault\n"),
        Point::Finished => put(out, b"finished\n"),
        Point::Spent => put(out, b"spent\n"),
    }
}

/// An answer of one byte.
fn letter(alloc: Global, byte: u8) -> Result<Answer, NoMemory>
    ensures { IfOk result (λ a. a ≡ AnswerOf.Text (byte ∷ [])) }
{
    let mut text = Listed::new(alloc);
    text.push(byte)?;
    Ok(Answer::Text(text))
}

/// An answer of one text of one byte.
fn letters(alloc: Global, byte: u8) -> Result<Answer, NoMemory>
    ensures { IfOk result (λ a. a ≡ AnswerOf.Texts ((byte ∷ []) ∷ [])) }
{
    let mut text = Listed::new(alloc);
    text.push(byte)?;
    let mut texts = Listed::new(alloc);
    texts.push(text)?;
    Ok(Answer::Texts(texts))
}

fn answer_to(alloc: Global, ask: &Ask, last: u8) -> Result<Option<Answer>, NoMemory>
    ensures { IfOk result (λ o. (a : AnswerOf) → o ≡ Some a → FitsPoint (Point.Asks ask.now) a) }
{
    match ask {
        Ask::Read(_) => Ok(Some(letter(alloc, b'i')?)),
        Ask::Sys(_) => Ok(Some(letter(alloc, last)?)),
        Ask::Write { .. } => Ok(Some(Answer::Nothing)),
        Ask::Remove(_) => Ok(Some(Answer::Nothing)),
        Ask::Out(_) => Ok(Some(Answer::Nothing)),
        _ => Ok(None),
    }
}

/// What a thread is given at a point, where the point tells of what type that is.
fn answer_at(alloc: Global, point: &Point, last: u8) -> Result<Option<Answer>, NoMemory>
    ensures { IfOk result (λ o. (a : AnswerOf) → o ≡ Some a → FitsPoint point.now a) }
{
    match point {
        Point::Asks(ask) => answer_to(alloc, ask, last),
        Point::Old(_, _) => Ok(Some(Answer::Bool(true))),
        Point::Task(_) => Ok(Some(letter(alloc, b't')?)),
        Point::Spawn(_, _) => Ok(Some(letter(alloc, b'2')?)),
        Point::Goal(_) => Ok(Some(letters(alloc, b'g')?)),
        Point::Declare(_) => Ok(Some(Answer::Nothing)),
        Point::Wait(_) => Ok(Some(Answer::Nothing)),
        Point::WaitAll => Ok(Some(Answer::Nothing)),
        Point::Save(_) => Ok(Some(Answer::Nothing)),
        _ => Ok(None),
    }
}

/// Says of a point what it is, and answers it.
fn reply(
    alloc: Global,
    point: Point,
    last: u8,
    told: &mut Vec<u8>,
) -> Result<Option<Answer>, NoMemory>
    ensures { IfOk result (λ o. (a : AnswerOf) → o ≡ Some a → FitsPoint point a) }
{
    match tell(told, &point) {
        Ok(()) => answer_at(alloc, &point, last),
        Err(fault) => Err(fault),
    }
}

/// Runs a thread to a point, and gives it its answer there; false where there is none.
fn turn(
    alloc: Global,
    unit: &Verified,
    thread: &mut Thread,
    ticks: &mut u64,
    last: u8,
    told: &mut Vec<u8>,
) -> Result<bool, NoMemory>
    requires valid { IsThread unit.now thread.old }
    requires ready { thread.old.status ≡ Ready }
    ensures { IfOk result (λ on. on ≡ true → IsThread unit.now thread.new × (thread.new.status ≡ Ready)) }
{
    let point = run_to_point(alloc, unit, thread, ticks)?;
    match reply(alloc, point, last, told)? {
        Some(answer) => {
            give(alloc, unit, thread, answer)?;
            Ok(true)
        }
        None => Ok(false),
    }
}

/// Runs the first thread of a unit through its points, and says how many ticks are left.
fn run(alloc: Global, unit: &Verified, last: u8, told: &mut Vec<u8>) -> Result<u64, NoMemory> {
    let mut thread = first_thread(alloc, unit)?;
    let mut ticks = 10;
    for _ in 0..POINTS {
        if !turn(alloc, unit, &mut thread, &mut ticks, last, told)? {
            return Ok(ticks);
        }
    }
    Ok(ticks)
}

/// What a run tells, and the ticks that are left.
fn told(alloc: Global, last: u8) -> Result<(Vec<u8>, u64), Fail> {
    let unit = verified(alloc)?;
    let mut told = Vec::new(alloc);
    let ticks = run(alloc, &unit, last, &mut told)?;
    Ok((told, ticks))
}

/// A row of the table.
fn row(rt: &impl Abort, alloc: Global, last: u8, end: &[u8]) -> Result<(), Fail> {
    let mut wanted = Vec::from_slice(alloc, FIRST)?;
    wanted.extend_from_slice(end)?;
    let (told, ticks) = told(alloc, last)?;
    assert_eq!(rt; told.as_slice(), wanted.as_slice());
    assert_eq!(rt; ticks, 5);
    Ok(())
}

#[test]
fn a_unit_runs_with_every_instruction(rt: HostRuntime) -> Result<(), Fail> {
    for (last, end) in &ENDS {
        row(&rt, rt.alloc(), *last, end)?;
    }
    Ok(())
}
