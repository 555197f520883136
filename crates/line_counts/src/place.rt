//! Where in its line a text ends.
ghost use Rattle.std.specs.Prelude.{◌≡◌, ℕ, List, [], ◌∷◌, ◌++◌};
ghost use Rattle.line_counts.specs.Place.{place_of};

/// What an error line begins with.
const ERROR_MARK: [u8; 7] = *b"error: ";

/// How far a line is along the words that begin an error line.
#[derive(Clone, Copy)]
pub(crate) enum Place {
    /// The line is so many of those bytes, and nothing else yet.
    Matching(usize),
    /// The line begins with all of them.
    Error,
    /// The line begins otherwise.
    Other,
}

impl Place {
    /// The place in an empty line.
    pub(crate) const START: Place = Place::Matching(0);

    /// The place behind one more byte of the line.
    pub(crate) fn then(self, byte: u8) -> Place
        ensures { (line : List ℕ) → self ≡ place_of line → result ≡ place_of (line ++ byte ∷ []) }
    {
        let Place::Matching(count) = self else {
            return self;
        };
        if count >= ERROR_MARK.len() || byte != ERROR_MARK[count] {
            return Place::Other;
        }
        if count + 1 == ERROR_MARK.len() {
            return Place::Error;
        }
        Place::Matching(count + 1)
    }
}
