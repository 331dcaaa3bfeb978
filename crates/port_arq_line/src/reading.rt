//! What was read of a stream.
ghost use Rattle.std.specs.Prelude.{◌≡◌, IfOk};
ghost use Rattle.port_arq_line.specs.Reading.{bytes_read, read_in};

use std::alloc::{AllocError, Global};
use strm_head_calls::{Answer, Reply};
use strm_shared_entry::StreamLog;

/// The bytes that an answer has, if it is that of a read; else none.
fn bytes_read(answer: &Answer) -> &[u8]
    ensures { result.now ≡ bytes_read answer.now }
{
    match answer {
        Answer::Done(Reply::Read { dat }) => dat.as_slice(),
        _ => &[],
    }
}

/// All that the reads of a stream gave, one after another. Fails only when memory runs out.
pub fn read_in<K>(alloc: Global, log: &StreamLog<K>) -> Result<Vec<u8>, AllocError>
    ensures { IfOk result (λ all. all.items ≡ read_in log.now.history.items) }
{
    let mut all = Vec::new(alloc);
    for kept in &log.history {
        all.extend_from_slice(bytes_read(kept.entry().answer()))?;
    }
    Ok(all)
}
