//! The calls of a script, by their words.
ghost use Rattle.std.specs.Prelude.{◌≡◌, length};
ghost use Rattle.strm_script_text.specs.Text.{texts_of};
ghost use Rattle.strm_script_words.specs.Fault.{Tells};
ghost use Rattle.strm_script_words.specs.Service.{is_service};
ghost use Rattle.strm_script_words.specs.Table as table;

use crate::fault::Cause;
use crate::keyword::Keyword;
use crate::kinds::{ReadKind, push_arity};
use crate::service::service_arity;

/// A call on an end of a stream.
#[derive(Clone, Copy, Debug, PartialEq, Eq)]
pub enum Verb {
    /// Sends a message (putmsg(2)).
    Putmsg,
    /// Sends a message in a band (putpmsg(2)).
    Putpmsg,
    /// Takes a message (getmsg(2)).
    Getmsg,
    /// Takes a message of a band (getpmsg(2)).
    Getpmsg,
    /// Reads bytes (read(2)).
    Read,
    /// Writes bytes (write(2)).
    Write,
    /// Puts a module in below the head (I_PUSH).
    Push,
    /// Takes the topmost module out (I_POP).
    Pop,
    /// Asks for the name of the topmost module (I_LOOK).
    Look,
    /// Asks for the names of all modules and of the driver (I_LIST).
    List,
    /// Asks for a module of a name (I_FIND).
    Find,
    /// Sends an ioctl (I_STR).
    Str,
    /// Sends an ioctl whose answer is asked for later.
    Strput,
    /// Asks for the answer to it.
    Strget,
    /// Flushes all bands (I_FLUSH).
    Flush,
    /// Flushes one band (I_FLUSHBAND).
    FlushBand,
    /// Asks for the number of messages that wait (I_NREAD).
    Nread,
    /// Looks at the first message (I_PEEK).
    Peek,
    /// Sets how reads treat messages (I_SRDOPT).
    SetRead,
    /// Asks how reads treat messages (I_GRDOPT).
    GetRead,
    /// Asks whether a message of a band could be sent (I_CANPUT).
    Canput,
    /// Asks whether a message of a band waits (I_CKBAND).
    Ckband,
    /// Asks for the band of the first message (I_GETBAND).
    Getband,
    /// Closes the end (close(2)).
    Close,
    /// Takes a message that was sent down to a wire.
    Take,
    /// Takes a message out of a queue that the program services (getq(9F)).
    Getq,
    /// Puts a message back into such a queue (putbq(9F)).
    Putbq,
    /// Sends a message on from such a module (putnext(9F)).
    Putnext,
    /// Asks whether a message of a band could be sent on from there (bcanputnext(9F)).
    Bcanputnext,
    /// Asks for the number of messages in such a queue (qsize(9F)).
    Qsize,
    /// Lets ticks pass for the modules of the end (timeout(9F)).
    Tick,
    /// Asks for the state of the end, as poll(2) reports it.
    Poll,
}

/// The calls whose words have this length.
fn verbs_of_length(len: usize) -> &'static [Verb]
    ensures { result.now ≡ table.verbs_of_length len }
{
    match len {
        3 => &[Verb::Pop, Verb::Str],
        4 => &[
            Verb::Read,
            Verb::Push,
            Verb::Look,
            Verb::List,
            Verb::Find,
            Verb::Peek,
            Verb::Take,
            Verb::Getq,
            Verb::Tick,
            Verb::Poll,
        ],
        5 => &[
            Verb::Write,
            Verb::Flush,
            Verb::Nread,
            Verb::Close,
            Verb::Putbq,
            Verb::Qsize,
        ],
        6 => &[
            Verb::Putmsg,
            Verb::Getmsg,
            Verb::Strput,
            Verb::Strget,
            Verb::Canput,
            Verb::Ckband,
        ],
        7 => &[
            Verb::Putpmsg,
            Verb::Getpmsg,
            Verb::SetRead,
            Verb::GetRead,
            Verb::Getband,
            Verb::Putnext,
        ],
        9 => &[Verb::FlushBand],
        11 => &[Verb::Bcanputnext],
        _ => &[],
    }
}

impl Verb {
    /// The number of fields of the call behind NAME:END, if it is no push and no service call.
    fn count(self) -> usize
        ensures { result ≡ length (table.forms_of self) }
    {
        match self {
            Verb::Putpmsg | Verb::Getpmsg => 4,
            Verb::Putmsg | Verb::Getmsg | Verb::Peek => 3,
            Verb::Str | Verb::Strput | Verb::FlushBand | Verb::SetRead => 2,
            Verb::Read
            | Verb::Write
            | Verb::Find
            | Verb::Strget
            | Verb::Flush
            | Verb::Canput
            | Verb::Ckband
            | Verb::Tick => 1,
            Verb::Push
            | Verb::Pop
            | Verb::Look
            | Verb::List
            | Verb::Nread
            | Verb::GetRead
            | Verb::Getband
            | Verb::Close
            | Verb::Take
            | Verb::Getq
            | Verb::Putbq
            | Verb::Putnext
            | Verb::Bcanputnext
            | Verb::Qsize
            | Verb::Poll => 0,
        }
    }

    /// Whether it is the call of a service procedure.
    fn is_service(self) -> bool
        ensures { result ≡ is_service self }
    {
        matches!(
            self,
            Verb::Getq | Verb::Putbq | Verb::Putnext | Verb::Bcanputnext | Verb::Qsize
        )
    }

    /// The number of fields of the call behind NAME:END. For a push it depends on the first of them, or on
    /// the second behind `noenable`, and for a call that sends a message on that message's word. Refused if
    /// these are missing, or name no kind of module and no message.
    #[inline(always)]
    pub fn arity<K: ReadKind>(self, texts: &[&[u8]]) -> Result<usize, Cause>
        ensures { Tells (λ n. n) result (table.arity_at K.words self (texts_of texts.now)) }
    {
        if matches!(self, Verb::Push) {
            return push_arity::<K>(texts);
        }
        if self.is_service() {
            return service_arity(self, texts);
        }
        Ok(self.count())
    }
}

impl Keyword for Verb {
    ghost use Rattle.strm_script_words.specs.Table.{all_verbs, word_of};

    ghost word = { word_of };

    ghost all = { all_verbs };

    fn word(self) -> &'static [u8] {
        match self {
            Verb::Putmsg => b"putmsg",
            Verb::Putpmsg => b"putpmsg",
            Verb::Getmsg => b"getmsg",
            Verb::Getpmsg => b"getpmsg",
            Verb::Read => b"read",
            Verb::Write => b"write",
            Verb::Push => b"push",
            Verb::Pop => b"pop",
            Verb::Look => b"look",
            Verb::List => b"list",
            Verb::Find => b"find",
            Verb::Str => b"str",
            Verb::Strput => b"strput",
            Verb::Strget => b"strget",
            Verb::Flush => b"flush",
            Verb::FlushBand => b"flushband",
            Verb::Nread => b"nread",
            Verb::Peek => b"peek",
            Verb::SetRead => b"setread",
            Verb::GetRead => b"getread",
            Verb::Canput => b"canput",
            Verb::Ckband => b"ckband",
            Verb::Getband => b"getband",
            Verb::Close => b"close",
            Verb::Take => b"take",
            Verb::Getq => b"getq",
            Verb::Putbq => b"putbq",
            Verb::Putnext => b"putnext",
            Verb::Bcanputnext => b"bcanputnext",
            Verb::Qsize => b"qsize",
            Verb::Tick => b"tick",
            Verb::Poll => b"poll",
        }
    }

    fn all() -> &'static [Verb] {
        &[
            Verb::Putmsg,
            Verb::Putpmsg,
            Verb::Getmsg,
            Verb::Getpmsg,
            Verb::Read,
            Verb::Write,
            Verb::Push,
            Verb::Pop,
            Verb::Look,
            Verb::List,
            Verb::Find,
            Verb::Str,
            Verb::Strput,
            Verb::Strget,
            Verb::Flush,
            Verb::FlushBand,
            Verb::Nread,
            Verb::Peek,
            Verb::SetRead,
            Verb::GetRead,
            Verb::Canput,
            Verb::Ckband,
            Verb::Getband,
            Verb::Close,
            Verb::Take,
            Verb::Getq,
            Verb::Putbq,
            Verb::Putnext,
            Verb::Bcanputnext,
            Verb::Qsize,
            Verb::Tick,
            Verb::Poll,
        ]
    }

    #[inline(always)]
    fn of_length(len: usize) -> &'static [Verb] {
        verbs_of_length(len)
    }
}
