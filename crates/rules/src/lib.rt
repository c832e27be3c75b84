// The rules of inks, cells, edits and views are in specs/; each function here stands for a theorem on them.
#![tactic(auto)]

ghost use Rattle.rules.specs.InkLaws.{BlankKeeps, BlankFades, LaidSound, FadedSound, PaperByte};
ghost use Rattle.rules.specs.CellLaws.{DotsPack, StripsPack, RecordsPack, DotsPlaced, StripsPlaced};
ghost use Rattle.rules.specs.LineLaws.{LineEnds, LineConnects};
ghost use Rattle.rules.specs.DrawLaws.{RoundsReach, FillReaches, ProtectedKept, DrawnSound, FlatSound, DrawnInside, ChangedMeans, TouchedMeans, BoxSmallest};
ghost use Rattle.rules.specs.ViewLaws.{DecimalsSpell, RowLengths, RowsBytes, MaskBits};

// Blank ink leaves every dot unaltered, and is blank at every opacity.
pub fn blank_keeps()
    ensures keeps { BlankKeeps }
    ensures fades { BlankFades }
{}

// Laying ink and fading keep colours within alpha, and alpha a byte; so are the colours on paper.
pub fn inks_sound()
    ensures laid { LaidSound }
    ensures faded { FadedSound }
    ensures paper { PaperByte }
{}

// Cells can be had back from their words, and blank cells pack to 0.
pub fn cells_pack()
    ensures dots { DotsPack }
    ensures strips { StripsPack }
    ensures records { RecordsPack }
{}

// An index and the coordinates that it stands for are inverse to each other.
pub fn cells_placed()
    ensures dots { DotsPlaced }
    ensures strips { StripsPlaced }
{}

// A line goes from its start to its end, and from dot to dot no coordinate moves by more than 1.
pub fn lines_connect()
    ensures ends { LineEnds }
    ensures steps { LineConnects }
{}

// What a fill reaches by steps is what is computed.
pub fn rounds_reach()
    ensures { RoundsReach }
{}

// A fill sets what it reaches, and nothing else.
pub fn fill_reaches()
    ensures { FillReaches }
{}

// What the frisket protects, no edit alters.
pub fn frisket_protects()
    ensures { ProtectedKept }
{}

// On a drawn sheet no dot has a colour above its alpha, and nothing stands off the sheet.
pub fn drawn_sheets()
    ensures sound { DrawnSound }
    ensures flat { FlatSound }
    ensures inside { DrawnInside }
{}

// The cells and stretches that are counted are those that differ after the edit.
pub fn changes_counted()
    ensures cells { ChangedMeans }
    ensures stretches { TouchedMeans }
{}

// A layer's box is the smallest rectangle round its inked dots.
pub fn box_smallest()
    ensures { BoxSmallest }
{}

// Sizes are spelt in decimal; rows have the length and the bytes that their format asks for.
pub fn view_bytes()
    ensures decimals { DecimalsSpell }
    ensures lengths { RowLengths }
    ensures bytes { RowsBytes }
    ensures bits { MaskBits }
{}
