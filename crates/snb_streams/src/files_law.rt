//! Laws of the files of update streams and of parameters, over every file.

ghost use Rattle.snb_streams.specs.FileLaws.{OneParamsReading, OneStreamReading, ParamsFiles, StreamFiles};

use crate::law::{one_fault, one_query};
use snb_input_fields::one_value;

/// The inserts that a stream says are those of its lines with a byte, in order, each with the number of
/// its line and of a kind that the stream has.
pub fn stream_files()
    ensures { StreamFiles }
{}

/// The lines of a stream say one list of inserts at most, and where they say one none of them is refused
/// for what it says. Where t never falls in that list, none is refused as out of order either.
pub fn one_stream_reading()
    ensures { OneStreamReading }
{
    one_value();
    one_fault();
}

/// The queries that a parameter file says are those of its data lines, in order; the first line with a
/// byte is a header.
pub fn params_files()
    ensures { ParamsFiles }
{}

/// The lines of a parameter file say one list of queries at most, and where they say one none of them is
/// refused.
pub fn one_params_reading()
    ensures { OneParamsReading }
{
    one_query();
}
