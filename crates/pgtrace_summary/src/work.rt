//! What requests do, and what ends them.

ghost use Rattle.std.specs.Prelude.{◌≡◌};
ghost use Rattle.pgtrace_summary.specs.Summary.{ends};

/// A request that runs a statement, or says which statement another one runs.
#[derive(Debug, Clone, Copy, PartialEq, Eq)]
pub enum Work {
    Query,
    Parse,
    Bind,
    Execute,
}

/// A message of the server that ends the answer to such a request.
#[derive(Debug, Clone, Copy, PartialEq, Eq)]
pub enum Reply {
    ParseComplete,
    BindComplete,
    /// What ends an Execute: CommandComplete, EmptyQueryResponse, PortalSuspended or ErrorResponse.
    ExecuteEnd,
    ReadyForQuery,
}

/// Whether this message ends the answer to a request that does this.
pub(crate) fn ends(work: Work, reply: Reply) -> bool
    ensures { result ≡ ends work reply }
{
    match (work, reply) {
        (Work::Query, Reply::ReadyForQuery)
        | (Work::Parse, Reply::ParseComplete)
        | (Work::Bind, Reply::BindComplete)
        | (Work::Execute, Reply::ExecuteEnd) => true,
        _ => false,
    }
}
