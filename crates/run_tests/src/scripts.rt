// Runs over scripts of a dictionary, each with what was worked by hand.
use crate::crashes::all_leave;
use crate::runs::all_end_and_write;
use std::alloc::{AllocError, Global};
use std::test::Fail;

// A put of two words, the same key again, a read, and a removal of a key that is not there. Then a script of no call. Then keys
// with a value of no word, and the least key and the greatest. Then a removal between puts. Then a put of what the key has: a put
// of one word has 107 events, and the second one 40.
const WORKED: &str = "dict 16
put 7 1 2
put 7 5
get 7
del 9
$0 dict
stored
stored
value 5
absent
size 1
7 5
$0 dict-crash 0 0, dict-crash 0 18446744073709551615
call 1 before
size 0
$2 dict-crash 234 0
no event 234 of 233
$2 dict-crash 18446744073709551615 0
no event 18446744073709551615 of 233
$1 dict-crash, dict-crash 1, dict-crash x 1, dict-crash 1 x, dict-crash 01 1, dict-crash 1 1 1, dict 1, dict dict, dict-crash-1
----
dict 16
$0 dict
size 0
$0 dict-crash 0 0
call 0 same
size 0
$2 dict-crash 1 0
no event 1 of 0
----
dict 16
put 5
get 5
$0 dict
stored
value
size 1
5
----
dict 16
put 18446744073709551615 18446744073709551615
put 0 0
get 0
get 18446744073709551615
$0 dict
stored
stored
value 0
value 18446744073709551615
size 2
0 0
18446744073709551615 18446744073709551615
----
dict 16
put 1 1
put 2 2
del 2
put 3 3
get 2
$0 dict
stored
stored
removed
stored
absent
size 2
1 1
3 3
----
dict 16
put 7 1
put 7 1
$0 dict
stored
stored
size 1
7 1
$0 dict-crash 107 0
call 1 after
size 1
7 1
$0 dict-crash 108 0, dict-crash 127 0, dict-crash 128 0, dict-crash 146 0, dict-crash 147 0
call 2 same
size 1
7 1
$2 dict-crash 148 0
no event 148 of 147
";

const REFUSED: &str = "dict 15
$2 dict, dict-crash 0 0
bad line 1
----
dict 1025
$2 dict, dict-crash 0 0
bad line 1
----
pool 1 16
$2 dict, dict-crash 0 0
bad line 1
----
# no line but this
$2 dict, dict-crash 0 0
bad line 2
----
dict 16
del 1 2
$2 dict, dict-crash 0 0
bad line 2
----
dict 16
$2 replay, serve
bad line 1
";

// Each root but the stage gets a key. No put finds a root then, not even of a key that is there, until a key goes.
const EVERY_ROOT: &str = "dict 16
put {2048..4095}
put {1..2047}
put 4096
put 7 1
get 7
del 7
put 4096
put 7
$0 dict
4095 times stored
full
full
value
removed
stored
full
size 4095
{1..6}
{8..4096}
";

#[test]
fn worked_scripts(rt: HostRuntime) -> Result<(), Fail> {
    for table in [WORKED, REFUSED, EVERY_ROOT] {
        all_end_and_write(&rt, rt.alloc(), table)?;
    }
    Ok(())
}

// A value has 509 words at most, for which a star stands here.
const LONGEST: &str = "dict 16
put 7*
del 7
$0 dict
stored
removed
size 0
----
dict 16
put 7* 1
$2 dict
bad line 2
";

// Each of three slabs holds 15 of the longest values. Then there is no space for a pair, not even of a key that is there or of no
// word, until a key goes.
const NO_SPACE: &str = "dict 16
put {1..45}*
put 46*
put 3*
put 46
del 2
put 46*
put 1
get 1
$0 dict
45 times stored
no space
no space
no space
removed
stored
no space
value*
size 45
1*
{3..46}*
";

#[test]
fn the_longest_values(rt: HostRuntime) -> Result<(), Fail> {
    for table in [LONGEST, NO_SPACE] {
        let table = with_longest(rt.alloc(), table)?;
        all_end_and_write(&rt, rt.alloc(), &table)?;
    }
    Ok(())
}

// A table in which each star stands for the words of a longest value.
fn with_longest(alloc: Global, table: &str) -> Result<String, AllocError> {
    let mut parts = table.split('*');
    let mut text = String::from_str(alloc, parts.next().unwrap_or(""))?;
    for part in parts {
        push_longest(&mut text)?;
        text.push_str(part)?;
    }
    Ok(text)
}

fn push_longest(text: &mut String) -> Result<(), AllocError> {
    for _ in 0..509u32 {
        text.push_str(" 1")?;
    }
    Ok(())
}

// The first put has 108 events: its block comes to the stage by event 89, its five words are written by event 96, and the block
// moves by event 108. The second put has 93 events until its block is at the stage, since the slab takes a class, and 6 of its
// words; the move stores the root by event 211, whose fence is event 213, and is done by 219. Then the block of the first goes.
const EVENTS: &str = "dict 16
put 7 1 2
put 7 5
get 7
del 9
$0..3 call 1 before
$89..94 call 1 before
$108 call 1 after, 7 1 2
$109..111 call 2 before, 7 1 2
$200..210 call 2 before, 7 1 2
$211..212 call 2 before, 7 1 2 | call 2 after, 7 5
$213..233 call 2 after, 7 5
";

#[test]
fn crashes_in_a_script(rt: HostRuntime) -> Result<(), Fail> {
    all_leave(&rt, rt.alloc(), "dict-crash", "size", EVENTS, 8)
}
