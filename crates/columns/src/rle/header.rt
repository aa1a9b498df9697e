// The header of a run.
//
// How much was read is bounded in each contract by the bytes of the call, which no type of an answer knows.
ghost use Rattle.std.specs.Prelude.{◌≡◌, ℕ, ◌<◌, ◌≤◌, length, IfOk};
ghost use Rattle.columns.specs.Runs.{shape, reads_shape, reads_nulls, element, header, head_by};
ghost use Rattle.codec.specs.Leb128.{read_as};

use crate::fault::ColumnFault;
use crate::rle::run::{Head, Run, Shape};
use codec::element::Decodable;
use codec::parse::leb128::read_leb128;

// What a header's number says.
fn shape_of(number: i64) -> Result<Shape, ColumnFault>
    ensures { result ≡ shape number }
{
    match number {
        i64::MIN => Err(ColumnFault::RunTooLong),
        ..=-1 => Ok(Shape::Literal(number.unsigned_abs())),
        0 => Ok(Shape::Nulls),
        1.. => Ok(Shape::Same(number.unsigned_abs())),
    }
}

// What the number in front says.
fn read_shape(bytes: &[u8]) -> Result<(Shape, usize), ColumnFault>
    ensures answer { result ≡ reads_shape bytes.now }
    ensures within { IfOk result (λ p. (0 < p.1) × (p.1 ≤ length bytes.now)) }
{
    let (number, used) = read_leb128::<i64>(bytes)?;
    Ok((shape_of(number)?, used))
}

// The length of a null run.
fn read_nulls(bytes: &[u8]) -> Result<(u64, usize), ColumnFault>
    ensures answer { result ≡ reads_nulls bytes.now }
    ensures within { IfOk result (λ p. p.1 ≤ length bytes.now) }
{
    let (count, used) = read_leb128::<u64>(bytes)?;
    if count > i64::MAX as u64 {
        return Err(ColumnFault::RunTooLong);
    }
    Ok((count, used))
}

// The element that the bytes start with. It is read into a place, since that is how a kind reads.
pub(crate) fn read_element<'a, E: Decodable<'a>>(bytes: &'a [u8]) -> Result<(E, usize), ColumnFault>
    ensures answer { read_as E.means result ≡ element (E.reads bytes.now) }
    ensures within { IfOk result (λ p. p.1 ≤ length bytes.now) }
{
    let mut place = E::blank();
    let used = place.decode(bytes)?;
    Ok((place, used))
}

// The run that the bytes start with.
pub(crate) fn read_header<'a, E: Decodable<'a>>(
    bytes: &'a [u8],
) -> Result<(Head<E>, usize), ColumnFault>
    ensures answer { read_as (head_by E.means) result ≡ header E.reads bytes.now }
    ensures within { IfOk result (λ p. (0 < p.1) × (p.1 ≤ length bytes.now)) }
{
    let (shape, used) = read_shape(bytes)?;
    let rest = &bytes[used..];
    let (count, run, more) = match shape {
        Shape::Nulls => {
            let (count, more) = read_nulls(rest)?;
            (count, Run::Null, more)
        }
        Shape::Same(count) => {
            let (element, more) = read_element(rest)?;
            (count, Run::Same(element), more)
        }
        Shape::Literal(count) => (count, Run::Literal, 0),
    };
    Ok((Head { count, run }, used + more))
}
