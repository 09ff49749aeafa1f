// A span as a table holds it, plain, and how it is read and written.
ghost use Rattle.std.specs.Prelude.{◌≡◌, Some};
ghost use Rattle.std.specs.Result.{result_ok};
ghost use Rattle.spans.specs.Spans.{Checked, no_span, range, row_range};

use crate::bound::Bound;
use crate::real::RealSpan;
use crate::span::Span;
use crate::whole::WholeSpan;
use std::error::Error;
use std::fmt;

// Real bounds are bit patterns of 64-bit floats: a table lies in memory that is lent, and its rows are plain.
#[derive(Clone, Copy, Debug, PartialEq, Eq, Hash)]
pub enum SpanRow {
    Whole(Bound, Bound),
    Real(u64, u64),
}

// The bounds of a row are not those of a span.
#[derive(Clone, Copy, Debug, PartialEq, Eq, Hash)]
pub struct NoSpan;

impl fmt::Display for NoSpan {
    ghost output = { λ _. Some no_span };

    fn fmt<W: fmt::Write>(&self, f: &mut fmt::Formatter<W>) -> fmt::Result {
        f.write_str("the bounds are not those of a span")
    }
}

impl Error for NoSpan {}

impl TryFrom<SpanRow> for Span {
    type Error = NoSpan;

    ghost try_from_gives = { λ row result. Checked (row_range row) (result_ok result) };

    fn try_from(row: SpanRow) -> Result<Span, NoSpan> {
        let span = match row {
            SpanRow::Whole(low, high) => WholeSpan::between(low, high).map(Span::Whole),
            SpanRow::Real(low, high) => RealSpan::from_bits(low, high).map(Span::Real),
        };
        span.ok_or(NoSpan)
    }
}

impl From<Span> for SpanRow {
    ghost from_gives = { λ span row. row_range row ≡ range span };

    fn from(span: Span) -> SpanRow {
        match span {
            Span::Whole(span) => SpanRow::Whole(span.low(), span.high()),
            Span::Real(span) => {
                let (low, high) = span.to_bits();
                SpanRow::Real(low, high)
            }
        }
    }
}
