//! What is returned: a whole message, or the id of an ioctl.
ghost use Rattle.std.specs.Prelude.{◌≡◌, option_copied};
ghost use Rattle.strm_c_numbers.specs.Whole as wholes;
ghost use Rattle.strm_c_service.specs.Taking.{reply_next};
ghost use Rattle.strm_c_service.specs.Written.{HasMessage, IsId, message_in};

use strm_c_numbers::{Whole, fill_data, fill_part, whole_of};
use strm_head_calls::{Answer, Reply};
use strm_msg::Message;

/// The numbers of a hangup, which has no parts.
fn hangup() -> Whole
    ensures { result ≡ wholes.whole_of (message_in (reply_next None)) }
{
    whole_of(&Message::of_hangup())
}

/// The numbers of the message that a take would return, or of a hangup if there is none.
pub fn next_whole(first: Option<&Message>) -> Whole
    ensures { result ≡ wholes.whole_of (message_in (reply_next (option_copied first.entry))) }
{
    match first {
        Some(m) => whole_of(m),
        None => hangup(),
    }
}

/// Writes the message of an answer, if it is a reply: its parts to buffers, and its numbers.
pub fn write_message(answer: &Answer, ctl: &mut [u8], dat: &mut [u8], got: &mut Whole)
    ensures { HasMessage ctl.old dat.old got.old ctl.new dat.new got.new answer.now }
{
    let Answer::Done(reply) = answer else {
        return;
    };
    match reply {
        Reply::Message { m } => {
            fill_part(ctl, m.ctl.as_ref());
            fill_data(dat, m);
            *got = whole_of(m);
        }
        _ => *got = hangup(),
    }
}

/// Stores the id of the ioctl that an answer gives, if it gives one.
pub fn write_id(answer: &Answer, id: &mut u64)
    ensures { IsId id.old id.new answer.now }
{
    if let Answer::Done(Reply::Strput { id: given }) = answer {
        *id = *given;
    }
}
