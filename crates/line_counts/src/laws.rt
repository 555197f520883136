//! Laws of the counts. Each is the contract of a function that does nothing; `specs/Laws.antt` has the statements.

ghost use Rattle.line_counts.specs.Laws.{ErrorsAreCounted, LinesAreCounted, LinesAreWhole};

/// At the text of printed lines the counts are those of the lines, and of the error lines among them.
pub fn lines_are_counted()
    ensures whole { LinesAreWhole }
    ensures lines { LinesAreCounted }
    ensures errors { ErrorsAreCounted }
{}
