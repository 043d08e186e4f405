// Traces of several threads, each at its own seat: the stacks of one seat are not those of another. Under `serve` an arena's owner
// has one seat for all of them.

/// Under `crash` the calls are made in the order of the lines, and each crash is behind the last event of one. A malloc that
/// opens a slab has 89 events, any other small one eleven and a large one six. A free of a small block has eleven, and three
/// more where its slab goes. The first slab has its blocks from 67584 on, the next ones from 133120 and from 198656 on. A slab
/// holds 992 blocks of 64 bytes, ten of 6144 and three of 16384.
pub const SEATS: &str = "pool 1 16
0 0 m 0 131072
0 0 m 1 16384
1 0 m {2..4} 16384
$may replay, serve
arena 0 calls 5
0 m 0 131072 placed 65536 131072
0 m 1 16384 placed 198656 16384
1 m 2 16384 placed 215040 16384
1 m 3 16384 placed 231424 16384
1 m 4 16384 no space
heap 4
0 65536 131072
1 198656 16384
2 215040 16384
3 231424 16384
$0 crash 0 106 0
call 3 after
heap 3
0 65536 131072
1 198656 16384
2 215040 16384
$0 crash 0 117 0
call 4 after
heap 4
0 65536 131072
1 198656 16384
2 215040 16384
3 231424 16384
$events 0 117
----
pool 1 16
0 0 m {1..6} 16384
0 0 m 0 65536
7 0 f 1
3 0 f 2
5 0 f 4
9 0 m 11 16384
0 0 m 12 16384
9 0 m 13 16384
9 0 m 14 16384
$0 crash 0 272 0
call 11 after
heap 5
0 196608 65536
3 100352 16384
5 149504 16384
6 165888 16384
11 83968 16384
$0 crash 0 294 0
call 13 after
heap 7
0 196608 65536
3 100352 16384
5 149504 16384
6 165888 16384
11 83968 16384
12 133120 16384
13 67584 16384
$events 0 294
----
pool 1 16
0 0 m 1 6000
1 0 m 2 6000
2 0 m 3 6000
1 0 m 4 6000
1 0 m 5 6000
$0 crash 0 133 0
call 5 after
heap 5
1 67584 6144
2 116736 6144
3 73728 6144
4 122880 6144
5 79872 6144
$events 0 133
----
pool 1 16
0 0 m {1..11} 6000
0 0 f 1
0 0 f 2
1 0 m {20..23} 6000
$0 crash 0 343 0
call 17 after
heap 13
{3..10} {79872 by 6144} 6144
11 133120 6144
20 73728 6144
21 182272 6144
22 188416 6144
23 67584 6144
$events 0 343
----
pool 1 16
0 0 m {1..9} 64
0 0 f 1
0 0 f 2
1 0 m 20 64
1 0 m 21 64
0 0 m 22 64
0 0 m 23 64
$0 crash 0 243 0
call 15 after
heap 11
{3..9} {67712 by 64} 64
20 67648 64
21 68608 64
22 67584 64
23 68160 64
$events 0 243
----
pool 1 16
0 0 m 1 64
0 0 m 2 64
1 0 f 1
1 0 m 3 64
0 0 m 4 64
1 0 m 5 64
$0 crash 0 144 0
call 6 after
heap 4
2 67648 64
3 67584 64
4 67712 64
5 68096 64
$events 0 144
----
pool 1 16
0 0 m 1 16384
1 0 m 2 16384
1 0 f 2
0 0 f 1
0 0 m 9 40000
1 0 m 3 16384
0 0 m 4 16384
$0 crash 0 231 0
call 7 after
heap 3
3 116736 16384
4 133120 16384
9 65536 49152
$events 0 231
----
pool 1 16
0 0 m 5 100
1 0 m 5 100
$may replay, serve
arena 0 calls 2
0 m 5 100 placed 67584 112
1 m 5 100 occupied 67584
heap 1
5 67584 112
$may replay, serve
arena 0 calls 2
1 m 5 100 placed 67584 112
0 m 5 100 occupied 67584
heap 1
5 67584 112
----
pool 1 16
0 0 m 1 64
1 0 m 2 64
$may replay
arena 0 calls 2
0 m 1 64 placed 67584 64
1 m 2 64 placed 68096 64
heap 2
1 67584 64
2 68096 64
$may serve
arena 0 calls 2
0 m 1 64 placed 67584 64
1 m 2 64 placed 67648 64
heap 2
1 67584 64
2 67648 64
";
