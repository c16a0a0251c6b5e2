//! Sessions whose replies are known beforehand.

use pw_testing::worlds::{GENERAL, WORLD};

/// What users say over a declaration, and what they are answered.
#[derive(Clone, Copy)]
pub struct Session<'a> {
    pub declaration: &'a str,
    pub rows: &'a [(&'a str, &'a str)],
}

// A barometer, a building, and the shadows of both.
const SHADOWS: &str = "workbench 1
user ann
user bob
premise shadow of ann
premise super of bob
cell h interval
cell bs interval
cell s interval
cell p interval
cell hh interval
";

/// The height of a building, by similar triangles. Then another user tells it too.
pub const BUILDING: Session<'_> = Session {
    declaration: SHADOWS,
    rows: &[
        ("ann attach product h bs p", "ok"),
        ("ann attach product hh s p", "ok"),
        ("ann tell h 30..32 under shadow", "ok"),
        ("ann tell bs 5490..5510 under shadow", "ok"),
        ("ann tell s 36..37 under shadow", "ok"),
        ("ann ask hh", "4452..4897"),
        ("bob tell hh 4500..4600 under super", "ok"),
        ("ann doubt super", "ok"),
        ("ann ask h", "30..32"),
        ("bob ask h", "30..31"),
        ("bob why h", "30..31 because shadow super"),
        ("ann beliefs", "believes shadow"),
        ("bob ask p", "164700..170200"),
    ],
};

/// Two users who disagree.
pub const DISAGREEING: Session<'_> = Session {
    declaration: GENERAL,
    rows: &[
        ("ann tell x 1..2 under a", "ok"),
        ("bob tell x 3..4 under b", "ok"),
        ("ann ask x", "contradiction"),
        ("ann why x", "contradiction because a b"),
        ("ann doubt b", "ok"),
        ("ann ask x", "1..2"),
        ("bob ask x", "contradiction"),
        ("ann believe b", "ok"),
        ("ann ask x", "contradiction"),
    ],
};

/// A cell that is narrowed two thousand times, until nothing is left. Two lines bound it, so it stays
/// bounded if one of them is refused.
pub const NARROWING: Session<'_> = Session {
    declaration: GENERAL,
    rows: &[
        ("ann tell x 0..2200", "ok"),
        ("bob tell x 0..2300", "ok"),
        ("ann tell y 1 under a", "ok"),
        ("ann attach adder x y x", "ok"),
        ("ann ask x", "contradiction"),
        ("ann doubt a", "ok"),
        ("ann ask x", "0..2200"),
    ],
};

/// A switch under premises.
pub const SWITCHING: Session<'_> = Session {
    declaration: GENERAL,
    rows: &[
        ("ann attach switch e x y", "ok"),
        ("ann tell x 5", "ok"),
        ("ann ask y", "nothing"),
        ("ann tell e {false} under a", "ok"),
        ("ann tell e {true} under b", "ok"),
        ("ann ask y", "contradiction"),
        ("ann doubt b", "ok"),
        ("ann ask y", "nothing"),
        ("ann believe b", "ok"),
        ("ann doubt a", "ok"),
        ("ann why y", "5 because b"),
        ("ann tell x 6 under c", "ok"),
        ("ann ask y", "contradiction"),
        ("ann believe a", "ok"),
        ("ann doubt b", "ok"),
        ("ann ask y", "nothing"),
        ("ann ask x", "contradiction"),
    ],
};

/// A sum that two users ask for.
pub const SUMMING: Session<'_> = Session {
    declaration: GENERAL,
    rows: &[
        ("ann attach sum x y t", "ok"),
        ("ann tell x 1..2", "ok"),
        ("ann tell y 10", "ok"),
        ("ann ask t", "11..12"),
        ("ann ask t", "11..12"),
        ("bob ask t", "11..12"),
    ],
};

/// A compound with an inner cell, attached twice: each has its own.
pub const TWICE: Session<'_> = Session {
    declaration: GENERAL,
    rows: &[
        ("ann tell x 1", "ok"),
        ("ann tell y 2", "ok"),
        ("ann attach apart x x", "ok"),
        ("ann attach apart y y", "ok"),
        ("ann conflicts", "conflicts none"),
    ],
};

/// An inner cell that contradicts itself, of an attachment after blank lines.
pub const APART: Session<'_> = Session {
    declaration: GENERAL,
    rows: &[
        ("ann tell x 1", "ok"),
        ("ann tell y 2", "ok"),
        ("", ""),
        ("", ""),
        ("", ""),
        ("", ""),
        ("", ""),
        ("", ""),
        ("", ""),
        ("", ""),
        ("", ""),
        ("ann attach apart x y", "ok"),
        ("ann conflicts", "conflicts line 12"),
        ("ann ask x", "1"),
    ],
};

/// A user who asks for a copy of what was told.
pub const COPYING: Session<'_> = Session {
    declaration: WORLD,
    rows: &[
        ("ann attach copy x y", "ok"),
        ("ann tell x 1..2", "ok"),
        ("ann ask y", "1..2"),
    ],
};

// Three neighbours, each of one of two colors under a premise, and whether two have the same color.
const TWO_COLORS: &str = "workbench 1
user ann
premise ra
premise ga
premise rb
premise gb
premise rc
premise gc
set color red green
cell na color
cell nb color
cell nc color
cell e1 bool
cell e2 bool
cell e3 bool
";

/// Neighbours have different colors: two can have that, three cannot.
pub const COLORING: Session<'_> = Session {
    declaration: TWO_COLORS,
    rows: &[
        ("ann tell na {red} under ra", "ok"),
        ("ann tell na {green} under ga", "ok"),
        ("ann tell nb {red} under rb", "ok"),
        ("ann tell nb {green} under gb", "ok"),
        ("ann attach equal na nb e1", "ok"),
        ("ann tell e1 {false}", "ok"),
        ("ann choose ra|ga rb|gb", "chose ra gb"),
        ("ann beliefs", "believes ra gb rc gc"),
        ("ann ask nb", "{green}"),
        ("ann tell nc {red} under rc", "ok"),
        ("ann tell nc {green} under gc", "ok"),
        ("ann attach equal nb nc e2", "ok"),
        ("ann tell e2 {false}", "ok"),
        ("ann attach equal na nc e3", "ok"),
        ("ann tell e3 {false}", "ok"),
        ("ann choose ra|ga rb|gb rc|gc", "chose none"),
        ("ann beliefs", "believes ra gb rc gc"),
    ],
};
