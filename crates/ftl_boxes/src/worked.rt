//! Laws: samples that were worked out by hand.

ghost use Rattle.std.specs.Prelude.{◌≡◌, ◌/◌, ◌++◌, codes};
ghost use Rattle.ftl_boxes.specs.declared.grammar.Grammar.TheVariants.{Stack, Block, Inline, Float};
ghost use Rattle.ftl_boxes.specs.declared.grammar.Grammar.TheVariants.{Table, Flow};
ghost use Rattle.ftl_boxes.specs.Numbers.{state, piece_width, piece_height};
ghost use Rattle.ftl_boxes.specs.Sample.{sample_text, group_text};

/// A law: the four states of a sample of two pieces, their quotients by 65536, the sizes of the
/// pieces, and the page.
pub fn a_sample_of_two_pieces()
    ensures first_state { state 2 1 ≡ 59559187 }
    ensures second_state { state 2 2 ≡ 1495354192 }
    ensures third_state { state 2 3 ≡ 671064393 }
    ensures fourth_state { state 2 4 ≡ 846338638 }
    ensures first_quotient { state 2 1 / 65536 ≡ 908 }
    ensures second_quotient { state 2 2 / 65536 ≡ 22817 }
    ensures third_quotient { state 2 3 / 65536 ≡ 10239 }
    ensures fourth_quotient { state 2 4 / 65536 ≡ 12914 }
    ensures first_width { piece_width 2 0 ≡ 38 }
    ensures first_height { piece_height 2 0 ≡ 10 }
    ensures second_width { piece_width 2 1 ≡ 49 }
    ensures second_height { piece_height 2 1 ≡ 16 }
    ensures page { sample_text Stack 2
        ≡ codes "%page 1\n%grammar stack\n%schedule auto\n%document\n"
        ++ codes "Sheet { body = Column { kids = [\n"
        ++ codes "Column { kids = [ Word { iw = 38 ih = 10 } Word { iw = 49 ih = 16 } ] }\n"
        ++ codes "] } }\n" }
{}

/// A law: the six pages of one piece.
pub fn samples_of_one_piece()
    ensures stack { sample_text Stack 1
        ≡ codes "%page 1\n%grammar stack\n%schedule auto\n%document\n"
        ++ codes "Sheet { body = Column { kids = [\n"
        ++ codes "Column { kids = [ Word { iw = 48 ih = 15 } ] }\n"
        ++ codes "] } }\n" }
    ensures block { sample_text Block 1
        ≡ codes "%page 1\n%grammar block\n%schedule auto\n%document\n"
        ++ codes "Screen { vw = 800 body = Block { margin = 8 pad = 4 border = 1 kids = [\n"
        ++ codes "Block { margin = 2 pad = 1 border = 0 kids = [ Word { iw = 48 ih = 15 } ] }\n"
        ++ codes "] } }\n" }
    ensures inline { sample_text Inline 1
        ≡ codes "%page 1\n%grammar inline\n%schedule auto\n%document\n"
        ++ codes "Para { vw = 600 space = 4 kids = [\n"
        ++ codes "Span { kids = [ Word { iw = 48 ih = 15 } ] }\n"
        ++ codes "] }\n" }
    ensures float { sample_text Float 1
        ≡ codes "%page 1\n%grammar float\n%schedule auto\n%document\n"
        ++ codes "Screen { vw = 600 kids = [\n"
        ++ codes "Group { pad = 2 kids = [ FloatLeft { iw = 48 ih = 15 } ] }\n"
        ++ codes "] }\n" }
    ensures table { sample_text Table 1
        ≡ codes "%page 1\n%grammar table\n%schedule auto\n%document\n"
        ++ codes "Table { rows = [\n"
        ++ codes "Row { cells = [ Cell { iw = 48 ih = 15 } ] }\n"
        ++ codes "] }\n" }
    ensures flow { sample_text Flow 1
        ≡ codes "%page 1\n%grammar flow\n%schedule auto\n%document\n"
        ++ codes "Article { vw = 800 pad = 16 kids = [\n"
        ++ codes "Para { margin = 6 space = 4 items = [ Word { iw = 48 ih = 15 } ] }\n"
        ++ codes "] }\n" }
{}

/// A law: eight pieces are one group.
pub fn samples_of_eight_pieces()
    ensures stack { sample_text Stack 8
        ≡ codes "%page 1\n%grammar stack\n%schedule auto\n%document\n"
        ++ codes "Sheet { body = Column { kids = [\n"
        ++ codes "Column { kids = [ Word { iw = 44 ih = 16 } Word { iw = 44 ih = 9 } "
        ++ codes "Word { iw = 46 ih = 10 } Word { iw = 41 ih = 9 } Word { iw = 45 ih = 9 } "
        ++ codes "Word { iw = 31 ih = 16 } Word { iw = 17 ih = 14 } Word { iw = 17 ih = 8 } ] }\n"
        ++ codes "] } }\n" }
    ensures float { sample_text Float 8
        ≡ codes "%page 1\n%grammar float\n%schedule auto\n%document\n"
        ++ codes "Screen { vw = 600 kids = [\n"
        ++ codes "Group { pad = 2 kids = [ FloatLeft { iw = 44 ih = 16 } Strip { ih = 9 } "
        ++ codes "Strip { ih = 10 } Strip { ih = 9 } FloatRight { iw = 45 ih = 9 } "
        ++ codes "Strip { ih = 16 } Strip { ih = 14 } Strip { ih = 8 } ] }\n"
        ++ codes "] }\n" }
{}

/// A law: the six pages of nine pieces, in a group of eight and one of one.
pub fn samples_of_nine_pieces()
    ensures stack { sample_text Stack 9
        ≡ codes "%page 1\n%grammar stack\n%schedule auto\n%document\n"
        ++ codes "Sheet { body = Column { kids = [\n"
        ++ codes "Column { kids = [ Word { iw = 42 ih = 12 } Word { iw = 49 ih = 15 } "
        ++ codes "Word { iw = 32 ih = 15 } Word { iw = 47 ih = 8 } Word { iw = 15 ih = 14 } "
        ++ codes "Word { iw = 47 ih = 13 } Word { iw = 41 ih = 12 } Word { iw = 35 ih = 10 } "
        ++ codes "] }\n"
        ++ codes "Column { kids = [ Word { iw = 45 ih = 9 } ] }\n"
        ++ codes "] } }\n" }
    ensures block { sample_text Block 9
        ≡ codes "%page 1\n%grammar block\n%schedule auto\n%document\n"
        ++ codes "Screen { vw = 800 body = Block { margin = 8 pad = 4 border = 1 kids = [\n"
        ++ codes "Block { margin = 2 pad = 1 border = 0 kids = [ Word { iw = 42 ih = 12 } "
        ++ codes "Word { iw = 49 ih = 15 } Word { iw = 32 ih = 15 } Word { iw = 47 ih = 8 } "
        ++ codes "Word { iw = 15 ih = 14 } Word { iw = 47 ih = 13 } Word { iw = 41 ih = 12 } "
        ++ codes "Word { iw = 35 ih = 10 } ] }\n"
        ++ codes "Block { margin = 2 pad = 1 border = 0 kids = [ Word { iw = 45 ih = 9 } ] }\n"
        ++ codes "] } }\n" }
    ensures inline { sample_text Inline 9
        ≡ codes "%page 1\n%grammar inline\n%schedule auto\n%document\n"
        ++ codes "Para { vw = 600 space = 4 kids = [\n"
        ++ codes "Span { kids = [ Word { iw = 42 ih = 12 } Word { iw = 49 ih = 15 } "
        ++ codes "Word { iw = 32 ih = 15 } Word { iw = 47 ih = 8 } Word { iw = 15 ih = 14 } "
        ++ codes "Word { iw = 47 ih = 13 } Word { iw = 41 ih = 12 } Word { iw = 35 ih = 10 } "
        ++ codes "] }\n"
        ++ codes "Span { kids = [ Word { iw = 45 ih = 9 } ] }\n"
        ++ codes "] }\n" }
    ensures float { sample_text Float 9
        ≡ codes "%page 1\n%grammar float\n%schedule auto\n%document\n"
        ++ codes "Screen { vw = 600 kids = [\n"
        ++ codes "Group { pad = 2 kids = [ FloatLeft { iw = 42 ih = 12 } Strip { ih = 15 } "
        ++ codes "Strip { ih = 15 } Strip { ih = 8 } FloatRight { iw = 15 ih = 14 } "
        ++ codes "Strip { ih = 13 } Strip { ih = 12 } Strip { ih = 10 } ] }\n"
        ++ codes "Group { pad = 2 kids = [ FloatLeft { iw = 45 ih = 9 } ] }\n"
        ++ codes "] }\n" }
    ensures table { sample_text Table 9
        ≡ codes "%page 1\n%grammar table\n%schedule auto\n%document\n"
        ++ codes "Table { rows = [\n"
        ++ codes "Row { cells = [ Cell { iw = 42 ih = 12 } Cell { iw = 49 ih = 15 } "
        ++ codes "Cell { iw = 32 ih = 15 } Cell { iw = 47 ih = 8 } Cell { iw = 15 ih = 14 } "
        ++ codes "Cell { iw = 47 ih = 13 } Cell { iw = 41 ih = 12 } Cell { iw = 35 ih = 10 } "
        ++ codes "] }\n"
        ++ codes "Row { cells = [ Cell { iw = 45 ih = 9 } ] }\n"
        ++ codes "] }\n" }
    ensures flow { sample_text Flow 9
        ≡ codes "%page 1\n%grammar flow\n%schedule auto\n%document\n"
        ++ codes "Article { vw = 800 pad = 16 kids = [\n"
        ++ codes "Para { margin = 6 space = 4 items = [ Word { iw = 42 ih = 12 } "
        ++ codes "Word { iw = 49 ih = 15 } Word { iw = 32 ih = 15 } Word { iw = 47 ih = 8 } "
        ++ codes "Word { iw = 15 ih = 14 } Word { iw = 47 ih = 13 } Word { iw = 41 ih = 12 } "
        ++ codes "Word { iw = 35 ih = 10 } ] }\n"
        ++ codes "Para { margin = 6 space = 4 items = [ Word { iw = 45 ih = 9 } ] }\n"
        ++ codes "] }\n" }
{}

/// A law: the fourth group of a sample of `flow` is a grid: of one cell, a row of four, a row of
/// four and one of one, and two rows of four; the third and the fifth are paragraphs.
pub fn grids()
    ensures one_cell { group_text Flow 25 3
        ≡ codes "Grid { margin = 4 rows = [ Row { cells = [ Cell { iw = 19 ih = 9 } ] } ] }\n" }
    ensures four_cells { group_text Flow 28 3
        ≡ codes "Grid { margin = 4 rows = [ Row { cells = [ Cell { iw = 43 ih = 15 } "
        ++ codes "Cell { iw = 30 ih = 15 } Cell { iw = 18 ih = 11 } Cell { iw = 19 ih = 9 } ] } "
        ++ codes "] }\n" }
    ensures five_cells { group_text Flow 29 3
        ≡ codes "Grid { margin = 4 rows = [ Row { cells = [ Cell { iw = 14 ih = 8 } "
        ++ codes "Cell { iw = 42 ih = 8 } Cell { iw = 37 ih = 12 } Cell { iw = 12 ih = 11 } ] } "
        ++ codes "Row { cells = [ Cell { iw = 41 ih = 8 } ] } ] }\n" }
    ensures eight_cells { group_text Flow 32 3
        ≡ codes "Grid { margin = 4 rows = [ Row { cells = [ Cell { iw = 45 ih = 14 } "
        ++ codes "Cell { iw = 38 ih = 15 } Cell { iw = 37 ih = 8 } Cell { iw = 23 ih = 8 } ] } "
        ++ codes "Row { cells = [ Cell { iw = 27 ih = 8 } Cell { iw = 25 ih = 9 } "
        ++ codes "Cell { iw = 32 ih = 9 } Cell { iw = 14 ih = 16 } ] } ] }\n" }
    ensures third { group_text Flow 25 2
        ≡ codes "Para { margin = 6 space = 4 items = [ Word { iw = 21 ih = 8 } "
        ++ codes "Word { iw = 42 ih = 8 } Word { iw = 40 ih = 15 } Word { iw = 24 ih = 14 } "
        ++ codes "Word { iw = 20 ih = 16 } Word { iw = 10 ih = 8 } Word { iw = 21 ih = 11 } "
        ++ codes "Word { iw = 29 ih = 11 } ] }\n" }
    ensures fifth { group_text Flow 33 4
        ≡ codes "Para { margin = 6 space = 4 items = [ Word { iw = 16 ih = 12 } ] }\n" }
{}
