//! Messages of JSON-RPC 2.0.

use crate::reply::RpcError;
use serde_json::Value;
use std::alloc::{AllocError, Global};

/// The identifier of a request.
#[derive(Drop)]
pub enum Id {
    Number(i64),
    Text(String),
    /// None: that of an error about a message without an id that could be read.
    Null,
}

/// The called method, and its parameters.
#[derive(Drop)]
pub struct Call {
    pub method: String,
    /// An object or an array; null where there is none.
    pub params: Value,
}

/// A message of a client.
#[derive(Drop)]
pub enum Message {
    /// A call that gets a reply.
    Request(Id, Call),
    /// A call that gets no reply.
    Notification(Call),
    /// The reply to a request of the server.
    Reply,
    /// No message of the protocol.
    Wrong(Id, RpcError),
}

/// The value of the member `id` of a message.
#[derive(Drop)]
enum Known {
    By(Id),
    Absent,
    Wrong,
}

/// Reads the body of a frame. Fails where memory runs out.
pub fn read_message(alloc: Global, body: &[u8]) -> Result<Message, AllocError> {
    match Value::from_slice(alloc, body) {
        Ok(value) => message_of(alloc, value),
        Err(error) if error.is_memory() => Err(AllocError),
        Err(_) => Ok(Message::Wrong(Id::Null, RpcError::ParseError)),
    }
}

/// The message of a JSON value.
fn message_of(alloc: Global, value: Value) -> Result<Message, AllocError> {
    let known = id_of(alloc, value.get("id"))?;
    if !is_call(&value) {
        return Ok(other(&value, known));
    }
    let call = call_of(alloc, value)?;
    Ok(match known {
        Known::By(id) => Message::Request(id, call),
        Known::Absent => Message::Notification(call),
        Known::Wrong => Message::Wrong(Id::Null, RpcError::InvalidRequest),
    })
}

/// Whether a value has the members of a call.
fn is_call(value: &Value) -> bool {
    value.get("jsonrpc").and_then(Value::as_str) == Some("2.0")
        && value.get("method").and_then(Value::as_str).is_some()
        && are_params(value.get("params"))
}

/// Whether the member `params` may be this.
fn are_params(params: Option<&Value>) -> bool {
    match params {
        Some(params) => params.is_object() || params.is_array() || params.is_null(),
        None => true,
    }
}

/// A message that is no call: a reply, or none of the protocol.
fn other(value: &Value, known: Known) -> Message {
    let is_reply = value.get("method").is_none()
        && (value.get("result").is_some() || value.get("error").is_some());
    if is_reply {
        return Message::Reply;
    }
    match known {
        Known::By(id) => Message::Wrong(id, RpcError::InvalidRequest),
        Known::Absent => Message::Wrong(Id::Null, RpcError::InvalidRequest),
        Known::Wrong => Message::Wrong(Id::Null, RpcError::InvalidRequest),
    }
}

/// The method and the parameters of a call.
fn call_of(alloc: Global, value: Value) -> Result<Call, AllocError> {
    let mut value = value;
    let method = String::from_str(
        alloc,
        value
            .get("method")
            .and_then(Value::as_str)
            .unwrap_or_default(),
    )?;
    let params = match value.get_mut("params") {
        Some(params) => params.take(),
        None => Value::Null,
    };
    Ok(Call { method, params })
}

/// The identifier of a message.
fn id_of(alloc: Global, id: Option<&Value>) -> Result<Known, AllocError> {
    let Some(id) = id else {
        return Ok(Known::Absent);
    };
    if let Some(number) = id.as_i64() {
        return Ok(Known::By(Id::Number(number)));
    }
    match id.as_str() {
        Some(text) => Ok(Known::By(Id::Text(String::from_str(alloc, text)?))),
        None => Ok(Known::Wrong),
    }
}
