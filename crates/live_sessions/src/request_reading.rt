//! Reads the request of a line.
ghost use Rattle.std.specs.Prelude.{◌≡◌};
ghost use Rattle.script_tokens.specs.TokenValue.{values_in};
ghost use Rattle.script_tokens.specs.Pool.{Answers};
ghost use Rattle.live_lines.specs.Requests.{request_of, HasNoFeed};

use live_lines::{Request, RequestFault, pool_of_line, read_line};
use sf_base::Failure;
use std::alloc::Global;

/// Reads the request of a line, or returns its fault or `OutOfMemory`.
///
/// The bytes of its literals are leaked, since edits and points borrow them for the rest of the session: at most twice
/// the length of the literals of all lines. A line without literals leaks nothing.
pub(crate) fn read_request<'t, 'p: 't>(
    alloc: Global,
    line: &'t [u8],
) -> Result<Option<Request<'t, 'p>>, Failure<RequestFault>>
    requires { HasNoFeed line.now }
    ensures { Answers (λ r. r) result (request_of (values_in line.now)) }
{
    let pool = pool_of_line(alloc, line)?;
    read_line(alloc, line, kept(pool))
}

// Leaks bytes.
fn kept<'p>(pool: Vec<u8>) -> &'p [u8]
    ensures { result.now ≡ pool.items }
{
    if pool.is_empty() {
        return &[];
    }
    pool.leak()
}
