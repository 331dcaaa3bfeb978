//! Frames, and how they are written as bytes.
ghost use Rattle.std.specs.Prelude.{◌≡◌, ◌≤◌, Some, drop, length, slice_get, IfOk, OnErr};
ghost use Rattle.port_arq.specs.Frame.{ack_in, frame_bytes, frame_in, message_in, message_kind, number_in};

use std::alloc::Global;
use strm_msg::{Bytes, NoMem};

/// The kind of a frame that has no message.
const ACKNOWLEDGEMENT: u8 = 0;

/// The kind of a frame that has one.
const MESSAGE: u8 = 1;

/// A message and its number.
#[derive(Debug, Drop, PartialEq, Eq)]
pub struct Numbered {
    /// The number. The first message that is handed down has 0.
    pub number: u32,
    /// The bytes of the message.
    pub bytes: Bytes,
}

/// What one end of a link sends the other.
#[derive(Debug, Drop, PartialEq, Eq)]
pub struct Frame {
    /// The number of the message that the sender awaits. It acknowledges all messages with lesser numbers.
    pub awaited: u32,
    /// The message that the frame carries, if it does more than acknowledge.
    pub message: Option<Numbered>,
}

/// The number in the first four bytes, the greatest first.
fn number_in(bytes: &[u8]) -> u32
    requires { 4 ≤ length bytes.now }
    ensures { result ≡ number_in bytes.now }
{
    u32::from_be_bytes([bytes[0], bytes[1], bytes[2], bytes[3]])
}

/// The acknowledgement whose kind is before these bytes.
fn ack_in(bytes: &[u8]) -> Option<Frame>
    ensures { result ≡ ack_in bytes.now }
{
    if bytes.len() != 4 {
        return None;
    }
    Some(Frame {
        awaited: number_in(bytes),
        message: None,
    })
}

/// The frame with a message whose kind is the first of these bytes. Fails only when memory runs out.
fn message_in(alloc: Global, bytes: &Bytes) -> Result<Option<Frame>, NoMem>
    ensures { IfOk result (λ frame. frame ≡ message_in (drop 1 bytes.now)) }
{
    let all = bytes.as_slice();
    if all.len() < 9 {
        return Ok(None);
    }
    let message = Numbered {
        number: number_in(&all[5..]),
        bytes: bytes.slice(alloc, 9, all.len())?,
    };
    Ok(Some(Frame {
        awaited: number_in(&all[1..]),
        message: Some(message),
    }))
}

impl Frame {
    /// The frame as bytes: its kind, 0 or 1 with a message, the number that is awaited, and then the number
    /// and the bytes of the message. A number takes four bytes, the greatest first. Fails only when memory
    /// runs out.
    pub fn bytes(&self, alloc: Global) -> Result<Bytes, NoMem>
        ensures { IfOk result (λ bytes. bytes ≡ frame_bytes self.now) }
    {
        let mut bytes = Vec::new(alloc);
        match &self.message {
            None => {
                bytes.push(ACKNOWLEDGEMENT)?;
                bytes.extend_from_slice(&self.awaited.to_be_bytes())?;
            }
            Some(message) => {
                bytes.push(MESSAGE)?;
                bytes.extend_from_slice(&self.awaited.to_be_bytes())?;
                bytes.extend_from_slice(&message.number.to_be_bytes())?;
                bytes.extend_from_slice(message.bytes.as_slice())?;
            }
        }
        Bytes::from_vec(alloc, bytes)
    }

    /// The frame that some bytes are, as `bytes` gives them. `None` where they are no frame. Long messages
    /// share the bytes. Fails only when memory runs out, which is not met where there is no message.
    pub fn read(alloc: Global, bytes: &Bytes) -> Result<Option<Frame>, NoMem>
        ensures frame { IfOk result (λ frame. frame ≡ frame_in bytes.now) }
        ensures memory { OnErr result (slice_get bytes.now 0 ≡ Some message_kind) }
    {
        let all = bytes.as_slice();
        let Some(kind) = all.first() else {
            return Ok(None);
        };
        match *kind {
            ACKNOWLEDGEMENT => Ok(ack_in(&all[1..])),
            MESSAGE => message_in(alloc, bytes),
            _ => Ok(None),
        }
    }
}
