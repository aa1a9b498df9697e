// A fault with the path to its column.
ghost use Rattle.std.specs.Prelude.{◌≡◌, Some};
ghost use Rattle.std.specs.Fmt.{styled_text};
ghost use Rattle.columns.specs.ColErrors.{in_column, error_number, name_word};

use crate::fault::ColumnFault;
use codec::refusal::Refusal;
use std::fmt;

// The columns of a change and their groups, by the names that a path has for them.
#[derive(Clone, Copy, Debug, PartialEq, Eq)]
pub enum ColumnName {
    Actor,
    Counter,
    String,
    Meta,
    Num,
    Obj,
    Key,
    Insert,
    Action,
    Value,
    Pred,
    Expand,
    MarkName,
}

// Where a fault is: a column, and its group if it has one.
#[derive(Clone, Copy, Debug, PartialEq, Eq)]
pub struct Path {
    pub column: ColumnName,
    pub group: Option<ColumnName>,
}

// What is wrong there. Cases of their own, since `None` would not say that a value is missing.
#[derive(Clone, Copy, Debug, PartialEq, Eq)]
pub enum DecodeColErrorKind {
    // nothing where a value must be
    UnexpectedNull,
    // an entry that is refused
    InvalidValue(ColumnFault),
}

#[derive(Clone, Copy, Debug, PartialEq, Eq)]
pub struct DecodeColumnError {
    pub path: Path,
    pub error: DecodeColErrorKind,
}

impl DecodeColumnError {
    // The same fault, one name further out. A path has two names at most.
    pub fn in_column(self, name: ColumnName) -> DecodeColumnError
        ensures { result ≡ in_column self name }
    {
        DecodeColumnError {
            path: Path {
                column: self.path.column,
                group: self.path.group.or(Some(name)),
            },
            error: self.error,
        }
    }
}

impl Refusal for DecodeColumnError {
    ghost number_of = { λ e. error_number e.error };

    fn number(self) -> u8 {
        match self.error {
            DecodeColErrorKind::UnexpectedNull => 16,
            DecodeColErrorKind::InvalidValue(fault) => fault.number(),
        }
    }
}

impl ColumnName {
    // The name as a path is written.
    pub fn word(self) -> &'static str
        ensures { result.now ≡ name_word self }
    {
        match self {
            ColumnName::Actor => "actor",
            ColumnName::Counter => "counter",
            ColumnName::String => "string",
            ColumnName::Meta => "meta",
            ColumnName::Num => "num",
            ColumnName::Obj => "obj",
            ColumnName::Key => "key",
            ColumnName::Insert => "insert",
            ColumnName::Action => "action",
            ColumnName::Value => "value",
            ColumnName::Pred => "pred",
            ColumnName::Expand => "expand",
            ColumnName::MarkName => "mark_name",
        }
    }
}

impl fmt::Display for ColumnName {
    ghost output = { λ name. Some (name_word name) };

    ghost styled_output = { λ name s. Some (styled_text s (name_word name)) };

    fn fmt<W: fmt::Write>(&self, f: &mut fmt::Formatter<W>) -> fmt::Result {
        f.pad(self.word())
    }
}
