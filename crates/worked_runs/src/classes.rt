// Traces in which a slab takes another class while blocks of its old one live on. `old_blocks` has what becomes of these, and
// `thresholds` how full such a slab may be.
//
// Behind a large block of eight granules the arena has room for one slab, at 196608; its blocks begin at 198656. Without
// one the slabs are at 65536, 131072 and 196608. A slab holds 62 blocks of 1024 bytes, 20 of 3072, ten of 6144, six of
// 10240 and five of 12288.

/// One thread, and one trace: a slab takes the class of 1024 bytes over a block of 64, which goes then. Of the nine mallocs of
/// 1000 bytes the last comes to what the old block had covered, behind seven from the stack.
pub const OLD_BLOCK_GOES: &str = "# the old block goes, and what it covered is given out last
pool 1 16
0 0 m 0 131072
0 0 m 1 64
0 0 m 2 1000
0 0 f 1
0 0 m {3..10} 1000
$0 replay, serve, gc
arena 0 calls 12
0 m 0 131072 placed 65536 131072
0 m 1 64 placed 198656 64
0 m 2 1000 placed 199680 1024
0 f 1 freed 198656 64
0 m {3..9} 1000 placed {200704 by 1024} 1024
0 m 10 1000 placed 198656 1024
heap 10
0 65536 131072
{2..9} {199680 by 1024} 1024
10 198656 1024
$events 0 290
";

/// One thread: which slab takes a class, and which may take none.
pub const CLASSES_OF_ONE_SEAT: &str = "# an old block lives on beside blocks of the new class
pool 1 16
0 0 m 0 131072
0 0 m 1 64
0 0 m 2 1000
$0 replay, serve, gc
arena 0 calls 3
0 m 0 131072 placed 65536 131072
0 m 1 64 placed 198656 64
0 m 2 1000 placed 199680 1024
heap 3
0 65536 131072
1 198656 64
2 199680 1024
$events 0 188
----
# no class again before the last old block went
pool 1 16
0 0 m 0 131072
0 0 m 1 64
0 0 m 2 64
0 0 m 3 1000
0 0 m 4 128
0 0 f 1
0 0 m 4 128
0 0 f 2
0 0 m 4 128
0 0 m 5 1000
0 0 f 3
0 0 m 5 1000
$0 replay, serve, gc
arena 0 calls 12
0 m 0 131072 placed 65536 131072
0 m 1 64 placed 198656 64
0 m 2 64 placed 198720 64
0 m 3 1000 placed 199680 1024
0 m 4 128 no space
0 f 1 freed 198656 64
0 m 4 128 no space
0 f 2 freed 198720 64
0 m 4 128 placed 198656 128
0 m 5 1000 no space
0 f 3 freed 199680 1024
0 m 5 1000 placed 199680 1024
heap 3
0 65536 131072
4 198656 128
5 199680 1024
$events 0 426
----
# of three slabs that are fit, by live blocks and then by start
pool 1 16
0 0 m {1..3} 6144
0 0 m 4 12288
0 0 m 5 12288
0 0 m 6 10240
0 0 m 7 10240
0 0 m 8 64
0 0 f 3
0 0 f 5
0 0 f 7
0 0 m 8 64
0 0 m 9 128
0 0 m 10 16
0 0 m 11 32
$0 replay, serve, gc
arena 0 calls 15
0 m 1 6144 placed 67584 6144
0 m 2 6144 placed 73728 6144
0 m 3 6144 placed 79872 6144
0 m 4 12288 placed 133120 12288
0 m 5 12288 placed 145408 12288
0 m 6 10240 placed 198656 10240
0 m 7 10240 placed 208896 10240
0 m 8 64 no space
0 f 3 freed 79872 6144
0 f 5 freed 145408 12288
0 f 7 freed 208896 10240
0 m 8 64 placed 145408 64
0 m 9 128 placed 208896 128
0 m 10 16 placed 79872 16
0 m 11 32 no space
heap 7
1 67584 6144
2 73728 6144
4 133120 12288
6 198656 10240
8 145408 64
9 208896 128
10 79872 16
$events 0 625
----
# a slab in which each block of a class is overlapped is not fit for that class
pool 1 16
0 0 m 0 131072
0 0 m {1..6} 6144
0 0 f 1
0 0 f 2
0 0 f 4
0 0 f 5
0 0 m 7 16384
0 0 m 8 14336
$0 replay, serve, gc
arena 0 calls 13
0 m 0 131072 placed 65536 131072
0 m {1..6} 6144 placed {198656 by 6144} 6144
0 f 1 freed 198656 6144
0 f 2 freed 204800 6144
0 f 4 freed 217088 6144
0 f 5 freed 223232 6144
0 m 7 16384 no space
0 m 8 14336 placed 241664 14336
heap 4
0 65536 131072
3 210944 6144
6 229376 6144
8 241664 14336
----
# the slab with the fewest live blocks is not fit for a class, and the next one is
pool 1 16
0 0 m {1..6} 6144
0 0 m {7..11} 3072
0 0 m 0 65536
0 0 f 1
0 0 f 2
0 0 f 4
0 0 f 5
0 0 f 11
0 0 m 12 16384
0 0 m 13 14336
$0 replay, serve, gc
arena 0 calls 19
0 m {1..6} 6144 placed {67584 by 6144} 6144
0 m {7..11} 3072 placed {133120 by 3072} 3072
0 m 0 65536 placed 196608 65536
0 f 1 freed 67584 6144
0 f 2 freed 73728 6144
0 f 4 freed 86016 6144
0 f 5 freed 92160 6144
0 f 11 freed 145408 3072
0 m 12 16384 placed 149504 16384
0 m 13 14336 placed 110592 14336
heap 9
0 196608 65536
3 79872 6144
6 98304 6144
{7..10} {133120 by 3072} 3072
12 149504 16384
13 110592 14336
";

/// Several threads. The calls are made in the order of the lines, and each crash is behind the last event of one. A malloc with
/// which a slab of n blocks takes a class has 91 + n + min(n, 8) events, and the free of a slab's last old block has 14.
pub const CLASSES_OF_SEVERAL_SEATS: &str = "# the stacks of two seats lose the blocks of a slab
pool 1 16
0 0 m 0 131072
0 0 m 1 64
1 0 m 2 64
2 0 m 3 1000
0 0 m 4 64
1 0 m 5 64
1 0 f 1
0 0 f 2
0 0 m 6 64
1 0 m 7 64
$0 crash 0 201 0
call 4 after
heap 4
0 65536 131072
1 198656 64
2 199168 64
3 199680 1024
$0 crash 0 319 0
call 9 after
heap 3
0 65536 131072
3 199680 1024
6 198656 64
$0 crash 0 330 0
call 10 after
heap 4
0 65536 131072
3 199680 1024
6 198656 64
7 199168 64
$events 0 330
----
# of two slabs one takes a class, and the other one's blocks stay on a stack
pool 1 16
0 0 m {1..6} 12288
1 0 f {1..4}
2 0 m 10 64
1 0 m 11 12288
1 0 m 12 64
$0 crash 0 359 0
call 11 after
heap 3
5 116736 12288
6 133120 12288
10 67584 64
$0 crash 0 381 0
call 13 after
heap 5
5 116736 12288
6 133120 12288
10 67584 64
11 145408 12288
12 68096 64
$events 0 381
----
# a block is taken from another seat before a slab takes a class
pool 1 16
0 0 m 1 12288
0 0 m 2 12288
1 0 m 3 64
1 0 m {4..7} 12288
$0 crash 0 315 0
call 7 after
heap 7
1 67584 12288
2 79872 12288
3 133120 64
4 92160 12288
5 104448 12288
6 116736 12288
7 145408 12288
$events 0 315
";
