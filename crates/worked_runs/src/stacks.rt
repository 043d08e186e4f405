// Traces of one thread, in which a small block comes from the stack of its seat, from a refill, or from a new slab.

/// The first slab has its blocks from 67584 on, the next ones from 133120 and from 198656 on. A slab holds 992 blocks of 64
/// bytes, ten of 6144 and three of 16384.
pub const STACKS: &str = "pool 1 16
0 0 m {1..3} 64
0 0 f 1
0 0 f 2
0 0 m 4 64
0 0 m 5 64
$0 replay, serve, gc
arena 0 calls 7
0 m 1 64 placed 67584 64
0 m 2 64 placed 67648 64
0 m 3 64 placed 67712 64
0 f 1 freed 67584 64
0 f 2 freed 67648 64
0 m 4 64 placed 67648 64
0 m 5 64 placed 67584 64
heap 3
3 67712 64
4 67648 64
5 67584 64
----
pool 1 16
0 0 m {1..4} 16384
0 0 f 2
0 0 f 1
0 0 m {5..7} 16384
$0 replay, serve, gc
arena 0 calls 9
0 m 1 16384 placed 67584 16384
0 m 2 16384 placed 83968 16384
0 m 3 16384 placed 100352 16384
0 m 4 16384 placed 133120 16384
0 f 2 freed 83968 16384
0 f 1 freed 67584 16384
0 m 5 16384 placed 67584 16384
0 m 6 16384 placed 83968 16384
0 m 7 16384 placed 149504 16384
heap 5
3 100352 16384
4 133120 16384
5 67584 16384
6 83968 16384
7 149504 16384
----
pool 1 16
0 0 m {1..9} 64
0 0 f {1..9}
0 0 m 20 64
$0 replay, serve, gc
arena 0 calls 19
0 m {1..9} 64 placed {67584 by 64} 64
0 f {1..9} freed {67584 by 64} 64
0 m 20 64 placed 67584 64
heap 1
20 67584 64
----
pool 1 16
0 0 m {1..9} 64
0 0 f 1
0 0 f 2
0 0 m {20..29} 64
$0 replay, serve, gc
arena 0 calls 21
0 m {1..9} 64 placed {67584 by 64} 64
0 f 1 freed 67584 64
0 f 2 freed 67648 64
0 m 20 64 placed 67584 64
0 m {21..27} 64 placed {68160 by 64} 64
0 m 28 64 placed 67648 64
0 m 29 64 placed 68608 64
heap 17
{3..9} {67712 by 64} 64
20 67584 64
{21..27} {68160 by 64} 64
28 67648 64
29 68608 64
----
pool 1 16
0 0 m {1..11} 6000
$0 replay, serve, gc
arena 0 calls 11
0 m {1..10} 6000 placed {67584 by 6144} 6144
0 m 11 6000 placed 133120 6144
heap 11
{1..10} {67584 by 6144} 6144
11 133120 6144
";
