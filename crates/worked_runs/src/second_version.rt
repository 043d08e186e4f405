// Traces of pools of version 2.

/// An arena of version 2 has 16384 roots, and its heap begins at granule 13, at 212992: of 25 granules it has 12, which are
/// 196608 bytes. A chunk of its log has 504 entries, and so has room for 252 pairs of a large malloc and its free, of 6 events
/// each. The next entry rolls the log, by 571 events. In an arena of 64 granules eight full chunks have the extents of two
/// live blocks each, so that the last call writes the log anew, by as many events: it has 577.
pub const SECOND_VERSION: &str = "pool2 1 25
0 0 m 16383 100
0 0 m 16384 100
0 0 m 1 196609
$0 replay, serve
arena 0 calls 3
0 m 16383 100 placed 215040 112
0 m 16384 100 no root
0 m 1 196609 too large
heap 1
16383 215040 112
----
pool2 1 25
0 0 m 16383 100
0 0 w 16383 13 9
0 0 m 16384 100
0 0 f 16384
0 0 w 16384 0 1
0 0 r 16384 0
0 0 v 16383 16384
0 0 v 16384 16383
0 0 r 16383 13
0 0 v 16383 4096
0 0 f 16383
0 0 f 4096
0 0 m 0 196608
$0 replay, serve
arena 0 calls 13
0 m 16383 100 placed 215040 112
0 w 16383 13 9 wrote
0 m 16384 100 no root
0 f 16384 no root
0 w 16384 0 1 no root
0 r 16384 0 no root
0 v 16383 16384 no root
0 v 16384 16383 no root
0 r 16383 13 value 9
0 v 16383 4096 moved 215040 112
0 f 16383 empty
0 f 4096 freed 215040 112
0 m 0 196608 placed 212992 196608
heap 1
0 212992 196608
$events 0 124
----
pool2 5 4096
$2 replay, serve, image, crash 0 0 0
bad line 1
----
pool2 16 1034
$2 replay, serve, image, crash 0 0 0
bad line 1
----
pool2 4 4133
$2 replay, serve
bad line 1
----
pool2 1 24
$2 replay, serve
bad line 1
----
pool2 1 4097
$2 replay, serve
bad line 1
----
pool2 1 25
253 times 0 0 m 0 20000, 0 0 f 0
$0 replay, serve
arena 0 calls 506
253 times 0 m 0 20000 placed 212992 32768, 0 f 0 freed 212992 32768
heap 0
$0 crash 0 3024 0
call 504 after
heap 0
$0 crash 0 3025 0, crash 0 3400 0, crash 0 3593 0, crash 0 3595 0, crash 0 3598 0, crash 0 3599 2, crash 0 3600 2
call 505 before
heap 0
$0 crash 0 3599 0, crash 0 3600 0, crash 0 3601 2
call 505 after
heap 1
0 212992 32768
$0 crash 0 3602 2, crash 0 3603 2
call 506 before
heap 1
0 212992 32768
$0 crash 0 3602 0, crash 0 3604 2, crash 0 3607 2
call 506 after
heap 0
$events 0 3607
----
pool2 1 64
0 0 m 0 20000
251 times 0 0 m 100 20000, 0 0 f 100
0 0 m {1..2} 20000
251 times 0 0 m 100 20000, 0 0 f 100
0 0 m {3..4} 20000
251 times 0 0 m 100 20000, 0 0 f 100
0 0 m {5..6} 20000
251 times 0 0 m 100 20000, 0 0 f 100
0 0 m {7..8} 20000
251 times 0 0 m 100 20000, 0 0 f 100
0 0 m {9..10} 20000
251 times 0 0 m 100 20000, 0 0 f 100
0 0 m {11..12} 20000
251 times 0 0 m 100 20000, 0 0 f 100
0 0 m {13..14} 20000
251 times 0 0 m 100 20000, 0 0 f 100
0 0 m 15 20000
0 0 m 101 20000
$0 replay, serve
arena 0 calls 4033
0 m 0 20000 placed 212992 32768
251 times 0 m 100 20000 placed 245760 32768, 0 f 100 freed 245760 32768
0 m {1..2} 20000 placed {245760 by 32768} 32768
251 times 0 m 100 20000 placed 311296 32768, 0 f 100 freed 311296 32768
0 m {3..4} 20000 placed {311296 by 32768} 32768
251 times 0 m 100 20000 placed 376832 32768, 0 f 100 freed 376832 32768
0 m {5..6} 20000 placed {376832 by 32768} 32768
251 times 0 m 100 20000 placed 442368 32768, 0 f 100 freed 442368 32768
0 m {7..8} 20000 placed {442368 by 32768} 32768
251 times 0 m 100 20000 placed 507904 32768, 0 f 100 freed 507904 32768
0 m {9..10} 20000 placed {507904 by 32768} 32768
251 times 0 m 100 20000 placed 573440 32768, 0 f 100 freed 573440 32768
0 m {11..12} 20000 placed {573440 by 32768} 32768
251 times 0 m 100 20000 placed 638976 32768, 0 f 100 freed 638976 32768
0 m {13..14} 20000 placed {638976 by 32768} 32768
251 times 0 m 100 20000 placed 704512 32768, 0 f 100 freed 704512 32768
0 m 15 20000 placed 704512 32768
0 m 101 20000 placed 737280 32768
heap 17
{0..15} {212992 by 32768} 32768
101 737280 32768
$0 crash 0 28189 0
call 4032 after
heap 16
{0..15} {212992 by 32768} 32768
$0 crash 0 28190 0, crash 0 28500 0, crash 0 28757 0, crash 0 28758 2, crash 0 28760 0, crash 0 28763 0, crash 0 28764 2
call 4033 before
heap 16
{0..15} {212992 by 32768} 32768
$0 crash 0 28764 0, crash 0 28765 0, crash 0 28766 2
call 4033 after
heap 17
{0..15} {212992 by 32768} 32768
101 737280 32768
$events 0 28766
";

/// The heap of the largest arena has 4083 granules, so that it holds 2041 blocks of two, and one granule is left. In the second
/// trace each chunk of the log has 255 entries of blocks that live on, and 249 of a block of root 16383 that comes and goes. That
/// one lives while the blocks of every other chunk are placed, which lie behind it, and its place goes to the first block of the
/// next chunk. Each of the 4032 calls has 6 events, and seven roll the log, by 571. The last one writes the entries of 2040 blocks
/// anew into five chunks, by 2839.
pub const LARGEST_ARENA: &str = "pool2 1 4096
0 0 m {0..2041} 20000
$0 replay, serve
arena 0 calls 2042
0 m {0..2040} 20000 placed {212992 by 32768} 32768
0 m 2041 20000 no space
heap 2041
{0..2040} {212992 by 32768} 32768
----
pool2 1 4096
0 0 m {0..254} 20000
124 times 0 0 m 16383 20000, 0 0 f 16383
0 0 m 16383 20000
0 0 m {255..509} 20000
124 times 0 0 f 16383, 0 0 m 16383 20000
0 0 f 16383
0 0 m {510..764} 20000
124 times 0 0 m 16383 20000, 0 0 f 16383
0 0 m 16383 20000
0 0 m {765..1019} 20000
124 times 0 0 f 16383, 0 0 m 16383 20000
0 0 f 16383
0 0 m {1020..1274} 20000
124 times 0 0 m 16383 20000, 0 0 f 16383
0 0 m 16383 20000
0 0 m {1275..1529} 20000
124 times 0 0 f 16383, 0 0 m 16383 20000
0 0 f 16383
0 0 m {1530..1784} 20000
124 times 0 0 m 16383 20000, 0 0 f 16383
0 0 m 16383 20000
0 0 m {1785..2039} 20000
124 times 0 0 f 16383, 0 0 m 16383 20000
0 0 f 16383
0 0 m 9000 20000
$0 crash 0 28189 0
call 4032 after
heap 2040
{0..254} {212992 by 32768} 32768
{255..509} {8601600 by 32768} 32768
510 8568832 32768
{511..764} {16957440 by 32768} 32768
{765..1019} {25313280 by 32768} 32768
1020 25280512 32768
{1021..1274} {33669120 by 32768} 32768
{1275..1529} {42024960 by 32768} 32768
1530 41992192 32768
{1531..1784} {50380800 by 32768} 32768
{1785..2039} {58736640 by 32768} 32768
$0 crash 0 28190 0, crash 0 30000 0, crash 0 31031 0
call 4033 before
heap 2040
{0..254} {212992 by 32768} 32768
{255..509} {8601600 by 32768} 32768
510 8568832 32768
{511..764} {16957440 by 32768} 32768
{765..1019} {25313280 by 32768} 32768
1020 25280512 32768
{1021..1274} {33669120 by 32768} 32768
{1275..1529} {42024960 by 32768} 32768
1530 41992192 32768
{1531..1784} {50380800 by 32768} 32768
{1785..2039} {58736640 by 32768} 32768
$0 crash 0 31034 0
call 4033 after
heap 2041
{0..254} {212992 by 32768} 32768
{255..509} {8601600 by 32768} 32768
510 8568832 32768
{511..764} {16957440 by 32768} 32768
{765..1019} {25313280 by 32768} 32768
1020 25280512 32768
{1021..1274} {33669120 by 32768} 32768
{1275..1529} {42024960 by 32768} 32768
1530 41992192 32768
{1531..1784} {50380800 by 32768} 32768
{1785..2039} {58736640 by 32768} 32768
9000 58703872 32768
$events 0 31034
";
