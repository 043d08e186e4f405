// Traces that move blocks from root to root.

/// The malloc opens a slab and has 89 events, the move twelve. Of these the fourth stores the new root's word, and the sixth
/// makes it durable: until then the image may have either heap, as the seed picks.
pub const MOVES: &str = "pool 1 16
0 0 m 5 100
0 0 v 5 9
0 0 v 9 9
0 0 v 5 9
0 0 v 9 4096
$0 replay, serve
arena 0 calls 5
0 m 5 100 placed 67584 112
0 v 5 9 moved 67584 112
0 v 9 9 occupied 67584
0 v 5 9 empty
0 v 9 4096 no root
heap 1
9 67584 112
----
pool 1 16
0 0 m 5 100
0 0 v 5 9
0 0 v 9 9
$0 crash 0 90 0, crash 0 91 0, crash 0 92 0, crash 0 93 2, crash 0 94 2
call 2 before
heap 1
5 67584 112
$0 crash 0 93 0, crash 0 94 0, crash 0 95 0, crash 0 96 0, crash 0 97 0, crash 0 98 0, crash 0 99 0, crash 0 100 0, crash 0 101 0
call 2 after
heap 1
9 67584 112
$events 0 101
----
pool 1 16
0 0 m 1 20000
0 0 m 2 64
0 0 w 1 2499 7
0 0 w 2 7 8
0 0 v 1 3
0 0 v 2 1
0 0 r 3 2499
0 0 r 1 7
0 0 f 1
0 0 m 4 64
$0 replay, serve
arena 0 calls 10
0 m 1 20000 placed 65536 32768
0 m 2 64 placed 100352 64
0 w 1 2499 7 wrote
0 w 2 7 8 wrote
0 v 1 3 moved 65536 32768
0 v 2 1 moved 100352 64
0 r 3 2499 value 7
0 r 1 7 value 8
0 f 1 freed 100352 64
0 m 4 64 placed 100352 64
heap 2
3 65536 32768
4 100352 64
";
