//! The output of a server.

use crate::json_text::{put_number, put_string};
use crate::message::Id;
use std::alloc::{AllocError, Global};

/// The reason why a message gets an error (JSON-RPC 2.0, section 5.1, and Language Server Protocol 3.17, `ErrorCodes`).
#[derive(Clone, Copy, Debug, PartialEq, Eq)]
pub enum RpcError {
    /// The body is not JSON.
    ParseError,
    /// The JSON is no request.
    InvalidRequest,
    MethodNotFound,
    InvalidParams,
    /// A request came before `initialize`.
    NotInitialized,
    /// A valid request could not be fulfilled.
    RequestFailed,
}

/// The result of a request.
#[derive(Drop)]
pub enum Outcome {
    /// A value of JSON.
    Answer(String),
    Refused(RpcError, &'static str),
}

impl RpcError {
    /// The number of this error.
    pub fn number(self) -> i64 {
        match self {
            RpcError::ParseError => -32_700,
            RpcError::InvalidRequest => -32_600,
            RpcError::MethodNotFound => -32_601,
            RpcError::InvalidParams => -32_602,
            RpcError::NotInitialized => -32_002,
            RpcError::RequestFailed => -32_803,
        }
    }

    /// The text of this error.
    pub fn text(self) -> &'static str {
        match self {
            RpcError::ParseError => "the message is not JSON",
            RpcError::InvalidRequest => "the message is no request",
            RpcError::MethodNotFound => "there is no such method",
            RpcError::InvalidParams => "the parameters are not those of the method",
            RpcError::NotInitialized => "the server is not initialized",
            RpcError::RequestFailed => "the request could not be met",
        }
    }
}

/// The reply to a request: `result` is JSON. Fails where memory runs out.
pub fn result_reply(alloc: Global, id: &Id, result_text: &str) -> Result<String, AllocError> {
    let mut out = begun(alloc, id)?;
    out.push_str(",\"result\":")?;
    out.push_str(result_text)?;
    out.push_str("}")?;
    Ok(out)
}

/// The reply to a request that gets an error. Fails where memory runs out.
pub fn error_reply(
    alloc: Global,
    id: &Id,
    error: RpcError,
    text: &str,
) -> Result<String, AllocError> {
    let mut out = begun(alloc, id)?;
    out.push_str(",\"error\":{\"code\":")?;
    put_number(alloc, error.number(), &mut out)?;
    out.push_str(",\"message\":")?;
    put_string(alloc, text, &mut out)?;
    out.push_str("}}")?;
    Ok(out)
}

/// A notification of the server: `params` is JSON. Fails where memory runs out.
pub fn notification(alloc: Global, method: &str, params: &str) -> Result<String, AllocError> {
    let mut out = String::from_str(alloc, "{\"jsonrpc\":\"2.0\",\"method\":")?;
    put_string(alloc, method, &mut out)?;
    out.push_str(",\"params\":")?;
    out.push_str(params)?;
    out.push_str("}")?;
    Ok(out)
}

/// The beginning of a reply.
fn begun(alloc: Global, id: &Id) -> Result<String, AllocError> {
    let mut out = String::from_str(alloc, "{\"jsonrpc\":\"2.0\",\"id\":")?;
    match id {
        Id::Number(number) => put_number(alloc, *number, &mut out)?,
        Id::Text(text) => put_string(alloc, text.as_str(), &mut out)?,
        Id::Null => out.push_str("null")?,
    }
    Ok(out)
}
