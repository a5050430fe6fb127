//! Why the words of a line are refused.
ghost use Rattle.std.specs.Prelude.{◌≡◌, ◌≤◌, length};
ghost use Rattle.s2script.specs.Refusals.{name_of_word_refusal};

/// Why a line is refused because of its words or its length, before anything is done.
#[derive(Clone, Copy, Debug, PartialEq, Eq)]
pub enum Refusal {
    /// An unknown command, a missing word, or a word too many.
    Syntax,
    /// A word that names no cell.
    Cell,
    /// A word that names no register.
    Register,
    /// A word that is not a level, or not a modulus of levels.
    Level,
    /// A word that is not a face.
    Face,
    /// A word that is not a coordinate, or bounds in the wrong order.
    Rectangle,
    /// A range that ends before it begins.
    Order,
    /// A word that is not the name of a file.
    Name,
    /// A line that is too long.
    Line,
}

impl Refusal {
    /// The name that is printed.
    pub fn name(self) -> &'static str
        ensures name { result.now ≡ name_of_word_refusal self }
        ensures short { length result.now ≤ 9 }
    {
        match self {
            Refusal::Syntax => "syntax",
            Refusal::Cell => "cell",
            Refusal::Register => "register",
            Refusal::Level => "level",
            Refusal::Face => "face",
            Refusal::Rectangle => "rectangle",
            Refusal::Order => "order",
            Refusal::Name => "name",
            Refusal::Line => "line",
        }
    }
}
