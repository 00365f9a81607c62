// The last line of a page, or of a text, and its status.

ghost use Rattle.std.specs.Prelude.{◌≡◌};
ghost use Rattle.caja_cli.specs.Output.{end_line as end_line_of, end_status as end_status_of};

use crate::status::Status;
use page_runner::End;

/// The last line.
pub fn end_line(end: End) -> &'static [u8]
    ensures { result.now ≡ end_line_of end }
{
    match end {
        End::Done => b"end done\n",
        End::Number => b"end number\n",
        End::Depth => b"end depth\n",
        End::Convert => b"end convert\n",
        End::Steps => b"end steps\n",
    }
}

/// The status of a page, or of a text, that ended so.
pub fn end_status(end: End) -> Status
    ensures { result ≡ end_status_of end }
{
    match end {
        End::Done => Status::Done,
        End::Number => Status::Number,
        End::Depth => Status::Depth,
        End::Convert => Status::Convert,
        End::Steps => Status::Steps,
    }
}
