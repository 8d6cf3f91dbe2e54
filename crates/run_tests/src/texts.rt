//! Texts of files that several tests speak of.

/// A line of four segments.
pub const LINE: &str = "(-2) (-1) (0) (1)";

/// Its two outer segments.
pub const OUTER: &str = "(-2) (1)";

/// A line that is twice as long.
pub const LONG: &str = "(-4) (-3) (-2) (-1) (0) (1) (2) (3)";

/// All its segments but the two in the middle.
pub const LONG_OUTER: &str = "(-4) (-3) (-2) (1) (2) (3)";

/// The map that doubles, from the line to the long one.
pub const MAP: &str =
    "(-2) -> {(-4) (-3)}\n(-1) -> {(-2) (-1)}\n(0) -> {(0) (1)}\n(1) -> {(2) (3)}";

/// The witness of an edge relative to its ends, modulo 2.
pub const OF_EDGE: &str = "chomp witness 1\nmod 2\nclaim pair\n\
     pair domain\nz 1: 1*2\nc 1: 1*2\nh 2:\nend\n";

/// The witness of the map that doubles, from the line relative to its outer segments to the long
/// one relative to its own, modulo 2.
pub const OF_MAP: &str = "\
chomp witness 1
mod 2
claim map
pair domain
z 1: 1*4 1*6
c 1: 1*4
h 4:
h 5: 1*6
h 6:
pair range
z 1: 1*8 1*10
c 1: 1*8
h 8:
h 9: 1*10
h 10:
values
v 1 1
g 1 1:
g 1 2:
g 1 3: 1*2
g 1 4:
g 1 5: 1*2 1*4
f 1: 1*1
v 2 1
g 2 1:
g 2 2:
g 2 3: 1*2
g 2 4:
g 2 5: 1*2 1*4
f 2: 1*2 1*4
v 3 5
g 3 5:
f 3: 1*5
v 4 5
g 4 5:
g 4 6:
g 4 7: 1*6
g 4 8:
g 4 9: 1*6 1*8
f 4: 1*6 1*8
v 5 9
g 5 9:
f 5: 1*9
v 6 9
g 6 9:
g 6 10:
g 6 11: 1*10
g 6 12:
g 6 13: 1*10 1*12
f 6: 1*10 1*12
v 7 13
g 7 13:
f 7: 1*13
v 8 13
g 8 13:
g 8 14:
g 8 15: 1*14
g 8 16:
g 8 17: 1*14 1*16
f 8:
v 9 13
g 9 13:
g 9 14:
g 9 15: 1*14
g 9 16:
g 9 17: 1*14 1*16
f 9: 1*13
matrix
m 1: 1
end
";
