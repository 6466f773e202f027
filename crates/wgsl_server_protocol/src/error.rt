//! The errors of the protocol.

ghost use Rattle.std.specs.Prelude.{◌≡◌};
ghost use Rattle.wgsl_server_protocol.specs.Replies.{code_of};

/// Why a request has no result.
#[derive(Clone, Copy, Debug, PartialEq, Eq)]
pub enum ErrorCode {
    ParseError,
    InvalidRequest,
    MethodNotFound,
    InvalidParams,
    InternalError,
    ServerNotInitialized,
    RequestFailed,
    RequestCancelled,
}

impl ErrorCode {
    /// Returns the number of an error.
    pub fn number(self) -> i64
        ensures { result ≡ code_of self }
    {
        match self {
            ErrorCode::ParseError => -32700,
            ErrorCode::InvalidRequest => -32600,
            ErrorCode::MethodNotFound => -32601,
            ErrorCode::InvalidParams => -32602,
            ErrorCode::InternalError => -32603,
            ErrorCode::ServerNotInitialized => -32002,
            ErrorCode::RequestFailed => -32803,
            ErrorCode::RequestCancelled => -32800,
        }
    }
}
