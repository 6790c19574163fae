//! Scripts of operators and of parts of values, and where they leave the machine.

/// The code of a unit's one function: how many instructions, their bytes, and where the thread leaves
/// the machine. The instructions stand on the lines from 1 on.
pub(super) type Operation = (u32, &'static [u8], &'static [u8]);

pub(super) const OPERATIONS: [Operation; 18] = [
    // PushInt 40, PushInt 2, Add, Show, PushText " ", Concat, PushInt 9223372036854775807, PushInt
    // 1, Add, Show, Concat, PushText " ", Concat, PushInt 40, PushInt 42, Sub, Show, Concat,
    // PushText " ", Concat, PushInt -6, PushInt 7, Mul, Show, Concat, Out, Return
    (
        27,
        &[
            1, 0, 0, 0, 0, 0, 0, 0, 40, 1, 0, 0, 0, 0, 0, 0, 0, 2, 9, 16, 2, 0, 0, 0, 1, 32, 18, 1,
            127, 255, 255, 255, 255, 255, 255, 255, 1, 0, 0, 0, 0, 0, 0, 0, 1, 9, 16, 18, 2, 0, 0,
            0, 1, 32, 18, 1, 0, 0, 0, 0, 0, 0, 0, 40, 1, 0, 0, 0, 0, 0, 0, 0, 42, 10, 16, 18, 2, 0,
            0, 0, 1, 32, 18, 1, 255, 255, 255, 255, 255, 255, 255, 250, 1, 0, 0, 0, 0, 0, 0, 0, 7,
            11, 16, 18, 42, 36,
        ],
        b"out 42 -9223372036854775808 -2 -42",
    ),
    // PushInt -7, PushInt 2, Div, Show, PushText " ", Concat, PushInt -9223372036854775808,
    // PushInt -1, Div, Show, Concat, PushText " ", Concat, PushInt -7, PushInt 2, Rem, Show,
    // Concat, PushText " ", Concat, PushInt -9223372036854775808, PushInt -1, Rem, Show, Concat,
    // Out, Return
    (
        27,
        &[
            1, 255, 255, 255, 255, 255, 255, 255, 249, 1, 0, 0, 0, 0, 0, 0, 0, 2, 12, 16, 2, 0, 0,
            0, 1, 32, 18, 1, 128, 0, 0, 0, 0, 0, 0, 0, 1, 255, 255, 255, 255, 255, 255, 255, 255,
            12, 16, 18, 2, 0, 0, 0, 1, 32, 18, 1, 255, 255, 255, 255, 255, 255, 255, 249, 1, 0, 0,
            0, 0, 0, 0, 0, 2, 13, 16, 18, 2, 0, 0, 0, 1, 32, 18, 1, 128, 0, 0, 0, 0, 0, 0, 0, 1,
            255, 255, 255, 255, 255, 255, 255, 255, 13, 16, 18, 42, 36,
        ],
        b"out -3 -9223372036854775808 -1 0",
    ),
    // PushInt 7, PushInt 0, Div, Drop, Return
    (
        5,
        &[
            1, 0, 0, 0, 0, 0, 0, 0, 7, 1, 0, 0, 0, 0, 0, 0, 0, 0, 12, 8, 36,
        ],
        b"bds: :3: zero divisor\n",
    ),
    // PushInt 7, PushInt 0, Rem, Drop, Return
    (
        5,
        &[
            1, 0, 0, 0, 0, 0, 0, 0, 7, 1, 0, 0, 0, 0, 0, 0, 0, 0, 13, 8, 36,
        ],
        b"bds: :3: zero divisor\n",
    ),
    // PushInt 7, PushInt 7, Equal, Show, PushText " ", Concat, PushText "a", PushText "ab", Equal,
    // Show, Concat, PushText " ", Concat, PushBool 1, PushBool 0, Equal, Show, Concat, PushText "
    // ", Concat, PushInt 7, PushInt 8, NotEqual, Show, Concat, PushText " ", Concat, PushBool 1,
    // PushBool 1, NotEqual, Show, Concat, Out, Return
    (
        34,
        &[
            1, 0, 0, 0, 0, 0, 0, 0, 7, 1, 0, 0, 0, 0, 0, 0, 0, 7, 21, 16, 2, 0, 0, 0, 1, 32, 18, 2,
            0, 0, 0, 1, 97, 2, 0, 0, 0, 2, 97, 98, 21, 16, 18, 2, 0, 0, 0, 1, 32, 18, 0, 1, 0, 0,
            21, 16, 18, 2, 0, 0, 0, 1, 32, 18, 1, 0, 0, 0, 0, 0, 0, 0, 7, 1, 0, 0, 0, 0, 0, 0, 0,
            8, 22, 16, 18, 2, 0, 0, 0, 1, 32, 18, 0, 1, 0, 1, 22, 16, 18, 42, 36,
        ],
        b"out true false false true false",
    ),
    // PushInt -1, PushInt 0, Less, Show, PushText " ", Concat, PushText "b", PushText "a", Less,
    // Show, Concat, PushText " ", Concat, PushInt 7, PushInt 7, LessEqual, Show, Concat, PushText
    // " ", Concat, PushText "", PushText "\0", LessEqual, Show, Concat, Out, Return
    (
        27,
        &[
            1, 255, 255, 255, 255, 255, 255, 255, 255, 1, 0, 0, 0, 0, 0, 0, 0, 0, 23, 16, 2, 0, 0,
            0, 1, 32, 18, 2, 0, 0, 0, 1, 98, 2, 0, 0, 0, 1, 97, 23, 16, 18, 2, 0, 0, 0, 1, 32, 18,
            1, 0, 0, 0, 0, 0, 0, 0, 7, 1, 0, 0, 0, 0, 0, 0, 0, 7, 24, 16, 18, 2, 0, 0, 0, 1, 32,
            18, 2, 0, 0, 0, 0, 2, 0, 0, 0, 1, 0, 24, 16, 18, 42, 36,
        ],
        b"out true false true true",
    ),
    // PushInt 8, PushInt 7, Greater, Show, PushText " ", Concat, PushText "\xff", PushText "z",
    // Greater, Show, Concat, PushText " ", Concat, PushInt 6, PushInt 7, GreaterEqual, Show,
    // Concat, PushText " ", Concat, PushText "a", PushText "a", GreaterEqual, Show, Concat, Out,
    // Return
    (
        27,
        &[
            1, 0, 0, 0, 0, 0, 0, 0, 8, 1, 0, 0, 0, 0, 0, 0, 0, 7, 25, 16, 2, 0, 0, 0, 1, 32, 18, 2,
            0, 0, 0, 1, 255, 2, 0, 0, 0, 1, 122, 25, 16, 18, 2, 0, 0, 0, 1, 32, 18, 1, 0, 0, 0, 0,
            0, 0, 0, 6, 1, 0, 0, 0, 0, 0, 0, 0, 7, 26, 16, 18, 2, 0, 0, 0, 1, 32, 18, 2, 0, 0, 0,
            1, 97, 2, 0, 0, 0, 1, 97, 26, 16, 18, 42, 36,
        ],
        b"out true true false true",
    ),
    // PushText "ab", PushText "cd", Concat, Show, PushText " ", Concat, PushText "", PushText "e",
    // Concat, Show, Concat, Out, Return
    (
        13,
        &[
            2, 0, 0, 0, 2, 97, 98, 2, 0, 0, 0, 2, 99, 100, 18, 16, 2, 0, 0, 0, 1, 32, 18, 2, 0, 0,
            0, 0, 2, 0, 0, 0, 1, 101, 18, 16, 18, 42, 36,
        ],
        b"out abcd e",
    ),
    // PushInt 1, PushInt 2, MakeList int 2, PushInt 3, ListAdd, Show, PushText " ", Concat,
    // MakeList int 0, PushInt 3, ListAdd, Show, Concat, PushText " ", Concat, PushInt 1, MakeList
    // int 1, PushInt 2, PushInt 3, MakeList int 2, ListCat, Show, Concat, PushText " ", Concat,
    // PushInt 1, MakeList int 1, MakeList int 0, ListCat, Show, Concat, Out, Return
    (
        33,
        &[
            1, 0, 0, 0, 0, 0, 0, 0, 1, 1, 0, 0, 0, 0, 0, 0, 0, 2, 27, 1, 0, 0, 0, 2, 1, 0, 0, 0, 0,
            0, 0, 0, 3, 19, 16, 2, 0, 0, 0, 1, 32, 18, 27, 1, 0, 0, 0, 0, 1, 0, 0, 0, 0, 0, 0, 0,
            3, 19, 16, 18, 2, 0, 0, 0, 1, 32, 18, 1, 0, 0, 0, 0, 0, 0, 0, 1, 27, 1, 0, 0, 0, 1, 1,
            0, 0, 0, 0, 0, 0, 0, 2, 1, 0, 0, 0, 0, 0, 0, 0, 3, 27, 1, 0, 0, 0, 2, 20, 16, 18, 2, 0,
            0, 0, 1, 32, 18, 1, 0, 0, 0, 0, 0, 0, 0, 1, 27, 1, 0, 0, 0, 1, 27, 1, 0, 0, 0, 0, 20,
            16, 18, 42, 36,
        ],
        b"out [1, 2, 3] [3] [1, 2, 3] [1]",
    ),
    // PushInt 7, PushInt 8, MakeList int 2, PushInt 0, Item, Show, PushText " ", Concat, PushInt
    // 7, PushInt 8, MakeList int 2, PushInt 1, Item, Show, Concat, Out, Return
    (
        17,
        &[
            1, 0, 0, 0, 0, 0, 0, 0, 7, 1, 0, 0, 0, 0, 0, 0, 0, 8, 27, 1, 0, 0, 0, 2, 1, 0, 0, 0, 0,
            0, 0, 0, 0, 29, 16, 2, 0, 0, 0, 1, 32, 18, 1, 0, 0, 0, 0, 0, 0, 0, 7, 1, 0, 0, 0, 0, 0,
            0, 0, 8, 27, 1, 0, 0, 0, 2, 1, 0, 0, 0, 0, 0, 0, 0, 1, 29, 16, 18, 42, 36,
        ],
        b"out 7 8",
    ),
    // PushInt 7, PushInt 8, MakeList int 2, PushInt 2, Item, Drop, Return
    (
        7,
        &[
            1, 0, 0, 0, 0, 0, 0, 0, 7, 1, 0, 0, 0, 0, 0, 0, 0, 8, 27, 1, 0, 0, 0, 2, 1, 0, 0, 0, 0,
            0, 0, 0, 2, 29, 8, 36,
        ],
        b"bds: :5: no index 2 in 2\n",
    ),
    // PushInt 7, PushInt 8, MakeList int 2, PushInt -1, Item, Drop, Return
    (
        7,
        &[
            1, 0, 0, 0, 0, 0, 0, 0, 7, 1, 0, 0, 0, 0, 0, 0, 0, 8, 27, 1, 0, 0, 0, 2, 1, 255, 255,
            255, 255, 255, 255, 255, 255, 29, 8, 36,
        ],
        b"bds: :5: no index -1 in 2\n",
    ),
    // MakeList int 0, PushInt 0, Item, Drop, Return
    (
        5,
        &[27, 1, 0, 0, 0, 0, 1, 0, 0, 0, 0, 0, 0, 0, 0, 29, 8, 36],
        b"bds: :3: no index 0 in 0\n",
    ),
    // PushInt 7, MakeList int 1, PushInt -9223372036854775808, Item, Drop, Return
    (
        6,
        &[
            1, 0, 0, 0, 0, 0, 0, 0, 7, 27, 1, 0, 0, 0, 1, 1, 128, 0, 0, 0, 0, 0, 0, 0, 29, 8, 36,
        ],
        b"bds: :4: no index -9223372036854775808 in 1\n",
    ),
    // PushText "a", PushInt 1, PushText "b", PushInt 2, MakeMap int 2, PushText "a", Key, Show,
    // PushText " ", Concat, PushText "a", PushInt 1, PushText "b", PushInt 2, MakeMap int 2,
    // PushText "b", Key, Show, Concat, Out, Return
    (
        21,
        &[
            2, 0, 0, 0, 1, 97, 1, 0, 0, 0, 0, 0, 0, 0, 1, 2, 0, 0, 0, 1, 98, 1, 0, 0, 0, 0, 0, 0,
            0, 2, 28, 1, 0, 0, 0, 2, 2, 0, 0, 0, 1, 97, 30, 16, 2, 0, 0, 0, 1, 32, 18, 2, 0, 0, 0,
            1, 97, 1, 0, 0, 0, 0, 0, 0, 0, 1, 2, 0, 0, 0, 1, 98, 1, 0, 0, 0, 0, 0, 0, 0, 2, 28, 1,
            0, 0, 0, 2, 2, 0, 0, 0, 1, 98, 30, 16, 18, 42, 36,
        ],
        b"out 1 2",
    ),
    // PushText "a", PushInt 1, PushText "b", PushInt 2, MakeMap int 2, PushText "", Key, Drop,
    // Return
    (
        9,
        &[
            2, 0, 0, 0, 1, 97, 1, 0, 0, 0, 0, 0, 0, 0, 1, 2, 0, 0, 0, 1, 98, 1, 0, 0, 0, 0, 0, 0,
            0, 2, 28, 1, 0, 0, 0, 2, 2, 0, 0, 0, 0, 30, 8, 36,
        ],
        b"bds: :7: no key \n",
    ),
    // PushText "a", PushInt 1, PushText "b", PushInt 2, MakeMap int 2, PushText "ab", Key, Drop,
    // Return
    (
        9,
        &[
            2, 0, 0, 0, 1, 97, 1, 0, 0, 0, 0, 0, 0, 0, 1, 2, 0, 0, 0, 1, 98, 1, 0, 0, 0, 0, 0, 0,
            0, 2, 28, 1, 0, 0, 0, 2, 2, 0, 0, 0, 2, 97, 98, 30, 8, 36,
        ],
        b"bds: :7: no key ab\n",
    ),
    // MakeMap int 0, PushText "a", Key, Drop, Return
    (
        5,
        &[28, 1, 0, 0, 0, 0, 2, 0, 0, 0, 1, 97, 30, 8, 36],
        b"bds: :3: no key a\n",
    ),
];
