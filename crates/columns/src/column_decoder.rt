// Reading a column by values, with each fault under the column's name.
ghost use Rattle.std.specs.Prelude.{◌≡◌, Option, Result};
ghost use Rattle.columns.specs.declared.col_error.ColumnName.{ColumnName as Name};
ghost use Rattle.columns.specs.declared.col_error.DecodeColumnError.{DecodeColumnError as Error};
ghost use Rattle.columns.specs.ColErrors.{in_column, invalid, in_col, maybe_in_col, seen_option, seen_value};

use crate::col_error::{ColumnName, DecodeColErrorKind, DecodeColumnError, Path};
use crate::fault::ColumnFault;

// the columns that are read so
pub mod columns;

// A fault that can be put under a column's name.
pub trait IntoColError {
    ghost under: { Self → Name → Error };

    fn into_col_error(self, name: ColumnName) -> DecodeColumnError
        ensures { result ≡ under self name };
}

impl IntoColError for ColumnFault {
    ghost under = { invalid };

    fn into_col_error(self, name: ColumnName) -> DecodeColumnError {
        DecodeColumnError {
            path: Path {
                column: name,
                group: None,
            },
            error: DecodeColErrorKind::InvalidValue(self),
        }
    }
}

impl IntoColError for DecodeColumnError {
    ghost under = { in_column };

    fn into_col_error(self, name: ColumnName) -> DecodeColumnError {
        self.in_column(name)
    }
}

// What reads one column, or one group of columns, a value at a time.
pub trait ColumnDecoder {
    type Value;

    type Error: IntoColError;

    // what a value means
    ghost Seen: { Type 0 };

    ghost seen: { Self.Value → Seen };

    // what is left to be read; what the next call tells of it, and what that leaves
    ghost Left: { Type 0 };

    ghost left: { Self → Left };

    ghost tells: { Left → Result (Option Seen) Self.Error };

    ghost leaves: { Left → Left };

    // The next value. Nothing where the entry is a null or the column has ended.
    fn maybe_next(&mut self) -> Result<Option<Self::Value>, Self::Error>
        ensures answer { seen_option seen result ≡ tells (left self.old) }
        ensures after { left self.new ≡ leaves (left self.old) };
}

// The next value or nothing, with each fault under the column's name.
pub fn maybe_next_in_col<D: ColumnDecoder>(
    decoder: &mut D,
    name: ColumnName,
) -> Result<Option<D::Value>, DecodeColumnError>
    ensures answer { seen_option D.ColumnDecoder.seen result ≡ maybe_in_col D.Error.IntoColError.under name (D.ColumnDecoder.tells (D.ColumnDecoder.left decoder.old)) }
    ensures after { D.ColumnDecoder.left decoder.new ≡ D.ColumnDecoder.leaves (D.ColumnDecoder.left decoder.old) }
{
    decoder
        .maybe_next()
        .map_err(|fault| fault.into_col_error(name))
}

// The next value, where one must be.
pub fn next_in_col<D: ColumnDecoder>(
    decoder: &mut D,
    name: ColumnName,
) -> Result<D::Value, DecodeColumnError>
    ensures answer { seen_value D.ColumnDecoder.seen result ≡ in_col D.Error.IntoColError.under name (D.ColumnDecoder.tells (D.ColumnDecoder.left decoder.old)) }
    ensures after { D.ColumnDecoder.left decoder.new ≡ D.ColumnDecoder.leaves (D.ColumnDecoder.left decoder.old) }
{
    maybe_next_in_col(decoder, name)?.ok_or(DecodeColumnError {
        path: Path {
            column: name,
            group: None,
        },
        error: DecodeColErrorKind::UnexpectedNull,
    })
}
