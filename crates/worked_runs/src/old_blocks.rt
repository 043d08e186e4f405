// Traces of old blocks: those of a slab that took another class while they lived.

/// Behind a large block of eight granules the arena has room for one slab, at 196608; its blocks begin at 198656.
pub const OLD_BLOCKS: &str = "# a freed old block goes on no stack
pool 1 16
0 0 m 0 131072
0 0 m 1 64
0 0 m 2 64
0 0 m 3 1000
0 0 f 1
0 0 m 4 1000
0 0 f 2
0 0 m 5 1000
0 0 m 6 64
$0 replay, serve, gc
arena 0 calls 9
0 m 0 131072 placed 65536 131072
0 m 1 64 placed 198656 64
0 m 2 64 placed 198720 64
0 m 3 1000 placed 199680 1024
0 f 1 freed 198656 64
0 m 4 1000 placed 200704 1024
0 f 2 freed 198720 64
0 m 5 1000 placed 201728 1024
0 m 6 64 placed 198656 64
heap 5
0 65536 131072
3 199680 1024
4 200704 1024
5 201728 1024
6 198656 64
----
# an old block moves from root to root
pool 1 16
0 0 m 0 131072
0 0 m 1 64
0 0 m 2 1000
0 0 v 1 5
0 0 v 1 6
0 0 f 1
0 0 m 7 64
0 0 v 2 1
0 0 f 5
0 0 m 7 64
0 0 v 1 2
0 0 f 7
0 0 f 2
0 0 m 8 65536
$0 replay, serve
arena 0 calls 14
0 m 0 131072 placed 65536 131072
0 m 1 64 placed 198656 64
0 m 2 1000 placed 199680 1024
0 v 1 5 moved 198656 64
0 v 1 6 empty
0 f 1 empty
0 m 7 64 no space
0 v 2 1 moved 199680 1024
0 f 5 freed 198656 64
0 m 7 64 placed 198656 64
0 v 1 2 moved 199680 1024
0 f 7 freed 198656 64
0 f 2 freed 199680 1024
0 m 8 65536 placed 196608 65536
heap 2
0 65536 131072
8 196608 65536
$events 0 362
----
# words of an old block
pool 1 16
0 0 m 0 131072
0 0 m 1 64
0 0 w 1 0 3
0 0 w 1 7 5
0 0 m 2 1000
0 0 r 1 0
0 0 r 1 7
0 0 w 1 7 6
0 0 w 1 8 9
0 0 w 2 0 8
0 0 r 1 7
0 0 v 1 4
0 0 r 4 7
0 0 f 4
0 0 r 4 7
0 0 m 3 64
0 0 r 2 0
0 0 r 3 7
$0 replay, serve
arena 0 calls 18
0 m 0 131072 placed 65536 131072
0 m 1 64 placed 198656 64
0 w 1 0 3 wrote
0 w 1 7 5 wrote
0 m 2 1000 placed 199680 1024
0 r 1 0 value 3
0 r 1 7 value 5
0 w 1 7 6 wrote
0 w 1 8 9 out of range
0 w 2 0 8 wrote
0 r 1 7 value 6
0 v 1 4 moved 198656 64
0 r 4 7 value 6
0 f 4 freed 198656 64
0 r 4 7 empty
0 m 3 64 placed 198656 64
0 r 2 0 value 8
0 r 3 7 value 6
heap 3
0 65536 131072
2 199680 1024
3 198656 64
----
# the last old block is the last block
pool 1 16
0 0 m 0 131072
0 0 m 1 64
0 0 m 2 1000
0 0 f 2
0 0 m 3 64
0 0 m 4 1000
0 0 f 4
0 0 f 1
0 0 m 5 65536
$0 replay, serve, gc
arena 0 calls 9
0 m 0 131072 placed 65536 131072
0 m 1 64 placed 198656 64
0 m 2 1000 placed 199680 1024
0 f 2 freed 199680 1024
0 m 3 64 no space
0 m 4 1000 placed 199680 1024
0 f 4 freed 199680 1024
0 f 1 freed 198656 64
0 m 5 65536 placed 196608 65536
heap 2
0 65536 131072
5 196608 65536
$events 0 241
";
