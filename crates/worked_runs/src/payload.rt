// Traces that write and read words of blocks.

/// A block of 16 bytes has the words 0 and 1. A malloc that opens a slab has 89 events and a write three, so that the
/// write of the second trace is under way from event 90 to 92. A read has none, and counts as a call. In the trace of two
/// arenas the slab of the block of 4096 bytes takes the class of those of 48: block 86 of that class, at 71712, is the first
/// behind the old one.
pub const PAYLOAD: &str = "pool 1 16
0 0 m 1 16
0 0 w 1 1 18446744073709551615
0 0 r 1 1
0 0 w 1 2 5
0 0 r 9 0
$0 replay, serve, gc
arena 0 calls 5
0 m 1 16 placed 67584 16
0 w 1 1 18446744073709551615 wrote
0 r 1 1 value 18446744073709551615
0 w 1 2 5 out of range
0 r 9 0 empty
heap 1
1 67584 16
----
pool 1 16
0 0 m 1 16
0 0 w 1 1 18446744073709551615
$0 crash 0 89 0
call 1 after
heap 1
1 67584 16
$0 crash 0 91 0
call 2 same
heap 1
1 67584 16
$events 0 92
----
pool 1 16
0 0 m 5 100
0 0 r 5 0
0 0 w 5 0 1
0 0 r 5 0
0 0 f 5
$0 crash 0 89 2
call 1 after
heap 1
5 67584 112
$0 crash 0 90 2, crash 0 92 2
call 3 same
heap 1
5 67584 112
$0 crash 0 93 2
call 5 before
heap 1
5 67584 112
$0 crash 0 106 2
call 5 after
heap 0
$events 0 106
----
pool 1 16
0 0 r 5 0
0 0 w 5 0 1
$0 replay, serve, gc
arena 0 calls 2
0 r 5 0 empty
0 w 5 0 1 empty
heap 0
$idle 0
----
pool 1 16
0 0 m 4095 20000
0 0 w 4096 0 1
0 0 r 4096 0
0 0 w 4094 9999 1
0 0 r 4095 4095
0 0 w 4095 4095 3
0 0 w 4095 4095 4
0 0 w 4095 4096 5
0 0 w 4095 4294967295 5
0 0 r 4095 4095
0 0 r 4095 4094
0 0 r 4095 4096
$0 replay, serve, gc
arena 0 calls 12
0 m 4095 20000 placed 65536 32768
0 w 4096 0 1 no root
0 r 4096 0 no root
0 w 4094 9999 1 empty
0 r 4095 4095 value 0
0 w 4095 4095 3 wrote
0 w 4095 4095 4 wrote
0 w 4095 4096 5 out of range
0 w 4095 4294967295 5 out of range
0 r 4095 4095 value 4
0 r 4095 4094 value 0
0 r 4095 4096 out of range
heap 1
4095 65536 32768
----
pool 1 16
0 0 m 1 16
0 0 w 1 0 7
0 0 f 1
0 0 r 1 0
0 0 m 2 16
0 0 r 2 0
0 0 r 2 1
$0 replay, serve, gc
arena 0 calls 7
0 m 1 16 placed 67584 16
0 w 1 0 7 wrote
0 f 1 freed 67584 16
0 r 1 0 empty
0 m 2 16 placed 67584 16
0 r 2 0 value 7
0 r 2 1 value 0
heap 1
2 67584 16
----
pool 2 64
# index
0 0 m 0 4096
0 0 m 1 40
0 0 m 2 40
0 0 w 1 0 7
1 1 m 0 100000
1 1 m 1 200
0 0 r 1 0
0 0 f 2
1 1 f 0
$0 replay, serve, gc
arena 0 calls 6
0 m 0 4096 placed 67584 4096
0 m 1 40 placed 71712 48
0 m 2 40 placed 71760 48
0 w 1 0 7 wrote
0 r 1 0 value 7
0 f 2 freed 71760 48
heap 2
0 67584 4096
1 71712 48
arena 1 calls 3
1 m 0 100000 placed 65536 114688
1 m 1 200 placed 182272 224
1 f 0 freed 65536 114688
heap 1
1 182272 224
----
pool 1 16
0 0 w 1 0
$2 replay, serve, gc
bad line 2
----
pool 1 16
0 0 r 1
$2 replay, serve, gc
bad line 2
----
pool 1 16
0 0 r 1 4294967296
$2 replay, serve, gc
bad line 2
----
pool 1 16
0 0 w 1 0 18446744073709551616
$2 replay, serve, gc
bad line 2
";
