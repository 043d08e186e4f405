// Short traces: each reply and each refusal, words that say no command, and crashes within a call.

/// Under `crash` the store of a root that no fence made durable is kept with the seeds 0 and 7, and with seed 2 it is not.
pub const SHORT: &str = "pool 1 16
0 0 m 5 100
$0 replay, serve, gc
arena 0 calls 1
0 m 5 100 placed 67584 112
heap 1
5 67584 112
$0 crash 0 0 7, crash 0 81 7, crash 0 82 7, crash 0 83 7, crash 0 84 2, crash 0 85 2
call 1 before
heap 0
$0 crash 0 84 0, crash 0 84 7, crash 0 85 0, crash 0 86 7, crash 0 86 2, crash 0 87 7, crash 0 89 7
call 1 after
heap 1
5 67584 112
$2 crash 0 90 7
no event 90 of 89
$2 crash 1 0 0
no arena 1 of 1
$1
$1 replay x, replay replay, Replay, serve x, serve 1, Serve, --help, --version, image x, check x, recover 0, migrate 0, gen 0 1, gen 01 1
$1 crash, crash 0 1, crash 0 1 0 0, crash 16 0 0, crash 00 0 0, crash 0 -1 0, crash 0 0 18446744073709551616
----
# one call
pool 1 16
0 0 m 5 100$0 replay, serve, gc
arena 0 calls 1
0 m 5 100 placed 67584 112
heap 1
5 67584 112
----
pool 1 16
0 0 m 1 16
0 0 m 2 16
$0 replay, serve, gc
arena 0 calls 2
0 m 1 16 placed 67584 16
0 m 2 16 placed 67600 16
heap 2
1 67584 16
2 67600 16
$events 0 100
----
pool 1 16
0 0 m {1..4} 16384
$0 replay, serve, gc
arena 0 calls 4
0 m 1 16384 placed 67584 16384
0 m 2 16384 placed 83968 16384
0 m 3 16384 placed 100352 16384
0 m 4 16384 placed 133120 16384
heap 4
1 67584 16384
2 83968 16384
3 100352 16384
4 133120 16384
----
pool 1 16
0 0 m {1..4} 16384
0 0 f 2
0 0 m 5 16384
$0 replay, serve, gc
arena 0 calls 6
0 m 1 16384 placed 67584 16384
0 m 2 16384 placed 83968 16384
0 m 3 16384 placed 100352 16384
0 m 4 16384 placed 133120 16384
0 f 2 freed 83968 16384
0 m 5 16384 placed 83968 16384
heap 4
1 67584 16384
3 100352 16384
4 133120 16384
5 83968 16384
----
pool 1 16
0 0 m 0 20000
0 0 m 1 20000
0 0 f 0
0 0 m 2 64
$0 replay, serve, gc
arena 0 calls 4
0 m 0 20000 placed 65536 32768
0 m 1 20000 placed 98304 32768
0 f 0 freed 65536 32768
0 m 2 64 placed 133120 64
heap 2
1 98304 32768
2 133120 64
----
pool 1 16
0 0 m 5 100
0 0 m 6 100
0 0 m 7 20000
0 0 f 5
$0 replay, serve, gc
arena 0 calls 4
0 m 5 100 placed 67584 112
0 m 6 100 placed 67696 112
0 m 7 20000 placed 131072 32768
0 f 5 freed 67584 112
heap 2
6 67696 112
7 131072 32768
----
pool 1 16
0 0 m 0 16385
$0 replay, serve, gc
arena 0 calls 1
0 m 0 16385 placed 65536 32768
heap 1
0 65536 32768
----
pool 1 16
0 0 m 0 196608
0 0 m 1 1
$0 replay, serve, gc
arena 0 calls 2
0 m 0 196608 placed 65536 196608
0 m 1 1 no space
heap 1
0 65536 196608
----
pool 1 16
0 0 m 0 196609
$0 replay, serve, gc
arena 0 calls 1
0 m 0 196609 too large
heap 0
----
pool 1 16
0 0 m 4095 64
0 0 m 4096 64
0 0 m 4095 0
0 0 f 7
0 0 m 7 0
0 0 m 7 196609
0 0 f 4096
$0 replay, serve, gc
arena 0 calls 7
0 m 4095 64 placed 67584 64
0 m 4096 64 no root
0 m 4095 0 occupied 67584
0 f 7 empty
0 m 7 0 zero size
0 m 7 196609 too large
0 f 4096 no root
heap 1
4095 67584 64
----
$2 replay, serve, gc
bad line 1
----
pool 1 16
64 0 f 1
$2 replay, serve, gc
bad line 2
----
pool 1 16
00 0 m 5 1
$2 replay, serve, gc, image, crash 1 0 0
bad line 2
----
pool 1 16
0 0 m 1 64
0 0 f 1
0 0 m 2 16385
$0 replay, serve, gc
arena 0 calls 3
0 m 1 64 placed 67584 64
0 f 1 freed 67584 64
0 m 2 16385 placed 65536 32768
heap 1
2 65536 32768
$0 crash 0 90 2, crash 0 93 2, crash 0 96 2
call 2 before
heap 1
1 67584 64
$0 crash 0 93 0, crash 0 97 2, crash 0 103 2
call 2 after
heap 0
$0 crash 0 104 2
call 3 before
heap 0
$0 crash 0 109 2
call 3 after
heap 1
2 65536 32768
$events 0 109
----
pool 1 16
0 0 m 5 100
0 0 f 5
$0 crash 0 81 0, crash 0 84 2
call 1 before
heap 0
$0 crash 0 84 0, crash 0 86 2, crash 0 89 2
call 1 after
heap 1
5 67584 112
$0 crash 0 92 2
call 2 before
heap 1
5 67584 112
$0 crash 0 97 2, crash 0 103 2
call 2 after
heap 0
$events 0 103
$2 crash 1 0 0
no arena 1 of 1
----
pool 1 16
0 0 m 5 20000
0 0 f 5
$0 crash 0 0 0, crash 0 1 0, crash 0 3 0, crash 0 4 2, crash 0 5 2
call 1 before
heap 0
$0 crash 0 4 0, crash 0 5 0, crash 0 6 2
call 1 after
heap 1
5 65536 32768
$0 crash 0 7 0, crash 0 9 2, crash 0 12 2
call 2 after
heap 0
$0 crash 0 7 2, crash 0 8 2
call 2 before
heap 1
5 65536 32768
$events 0 12
----
pool 1 16
0 0 f 5
$idle 0
----
pool 1 16
0 0 m {0..2} 20000
0 0 m 3 98304
0 0 f 0
0 0 f 2
0 0 m 4 20000
$0 replay, serve, gc
arena 0 calls 7
0 m 0 20000 placed 65536 32768
0 m 1 20000 placed 98304 32768
0 m 2 20000 placed 131072 32768
0 m 3 98304 placed 163840 98304
0 f 0 freed 65536 32768
0 f 2 freed 131072 32768
0 m 4 20000 placed 65536 32768
heap 3
1 98304 32768
3 163840 98304
4 65536 32768
----
pool 1 1024
0 0 m 5 16711680
$0 crash 0 6 0
call 1 after
heap 1
5 65536 16711680
";
