//! The rows of the usage text.
ghost use Rattle.std.specs.Prelude.{◌≡◌, IfSome};
ghost use Rattle.hb_words.specs.Rows.{row_word};

/// A row of the usage text, by its first word.
#[derive(Clone, Copy, Debug, PartialEq, Eq)]
pub enum Row {
    Compile,
    Save,
    Core,
    Refactor,
    Sample,
    Show,
    Certify,
    Verify,
}

impl Row {
    /// The row of a first word.
    pub fn of(word: &str) -> Option<Row>
        ensures { IfSome result (λ row. word.now ≡ row_word row) }
    {
        if word == "compile" {
            Some(Row::Compile)
        } else if word == "save" {
            Some(Row::Save)
        } else if word == "core" {
            Some(Row::Core)
        } else if word == "refactor" {
            Some(Row::Refactor)
        } else if word == "sample" {
            Some(Row::Sample)
        } else {
            Row::of_later(word)
        }
    }

    /// The row of a first word, of the last three rows.
    fn of_later(word: &str) -> Option<Row>
        ensures { IfSome result (λ row. word.now ≡ row_word row) }
    {
        if word == "show" {
            Some(Row::Show)
        } else if word == "certify" {
            Some(Row::Certify)
        } else if word == "verify" {
            Some(Row::Verify)
        } else {
            None
        }
    }
}
